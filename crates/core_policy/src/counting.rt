// Statements are counted as they become due.

use crate::policy::Policy;
use client_desk::{Body, Work};
use command_parse::COM_QUERY;
use core_tables::{Client, Tables};
use core_texts::Texts;
use mx_base::{ClientNo, OutOfMemory};
use std::alloc::Global;

/// How long a packet is behind which its message goes on: 2^24 - 1 bytes, and its header (client/server protocol, "MySQL Packets").
const FULL_PACKET: usize = 16_777_219;

// The text of a query that is one packet.
fn query_in(packets: &[u8]) -> Option<&[u8]> {
    match packets {
        [_, _, _, _, byte, text @ ..] if *byte == COM_QUERY => Some(text),
        _ => None,
    }
}

// The bytes of a packet behind its header.
fn payload_in(packet: &[u8]) -> &[u8] {
    match packet {
        [_, _, _, _, payload @ ..] => payload,
        _ => &[],
    }
}

// Packets of one message as one of any length.
fn joined(alloc: Global, packets: &[u8]) -> Result<Vec<u8>, OutOfMemory> {
    let mut message = Vec::from_slice(alloc, &[0, 0, 0, 0])?;
    for packet in packets.chunks(FULL_PACKET) {
        message.extend_from_slice(payload_in(packet))?;
    }
    Ok(message)
}

impl Policy {
    /// A client's statement became due to a server. A query, and an execute, are counted under the digest of the text that the server runs too.
    pub fn states(
        &mut self,
        tables: &Tables,
        texts: &Texts,
        client: ClientNo,
    ) -> Result<(), OutOfMemory> {
        self.board.counts.states();
        let Some(row) = tables.clients.get(&client.0) else {
            return Ok(());
        };
        match &row.desk.work {
            Some(work) => self.counts_work(texts, row, work),
            None => Ok(()),
        }
    }

    fn counts_work(&mut self, texts: &Texts, row: &Client, work: &Work) -> Result<(), OutOfMemory> {
        match &work.body {
            Body::Packets(packets) => self.counts_query(row, work, packets.as_slice()),
            Body::Run(_) => match texts.find(work.key) {
                Some(kept) => self.counts_text(row, work, kept.text()),
                None => Ok(()),
            },
            Body::Away => Ok(()),
        }
    }

    // Of what is sent in packets, queries are counted.
    fn counts_query(
        &mut self,
        row: &Client,
        work: &Work,
        packets: &[u8],
    ) -> Result<(), OutOfMemory> {
        if packets.len() > FULL_PACKET {
            let message = joined(self.alloc, packets)?;
            return self.counts_query_of(row, work, message.as_slice());
        }
        self.counts_query_of(row, work, packets)
    }

    fn counts_query_of(
        &mut self,
        row: &Client,
        work: &Work,
        message: &[u8],
    ) -> Result<(), OutOfMemory> {
        match query_in(message) {
            Some(text) => self.counts_text(row, work, text),
            None => Ok(()),
        }
    }

    // A statement of this text, of a client where it stands.
    fn counts_text(&mut self, row: &Client, work: &Work, text: &[u8]) -> Result<(), OutOfMemory> {
        let Some(account) = row.desk.seat.account() else {
            return Ok(());
        };
        let schema = row.desk.seat.place.schema.as_slice();
        let _ = self
            .board
            .digests
            .count(work.hostgroup, schema, account.user(), text)?;
        Ok(())
    }
}
