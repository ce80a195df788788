// Laws of packets and messages, for whoever stands on this crate.
ghost use Rattle.std.specs.Prelude.{◌≡◌, ◌≤◌, ◌<◌, ℕ, ◌+◌, ◌/◌, ◌%◌, List, ◌++◌, length};
ghost use Rattle.mx_base.specs.Fields.{AreBytes};
ghost use Rattle.packet_frame.specs.Packets.{Framed, first_message, spelling, longest};
ghost use Rattle.packet_frame.specs.Packets.Found.{Whole};

/// A payload has one spelling as packets: it is found in it again, whatever follows, and a message that is found was
/// spelled so.
pub fn one_spelling()
    ensures again { (limit first : ℕ) (payload rest : List ℕ) → first < 256 → length payload ≤ limit → first_message limit first (spelling first payload ++ rest) ≡ Whole (record { first = first; last = (first + length payload / longest) % 256; payload = payload }) rest }
    ensures only { (limit first : ℕ) (bytes : List ℕ) (message : Framed) (rest : List ℕ) → AreBytes bytes → first_message limit first bytes ≡ Whole message rest → (message.first ≡ first) × (bytes ≡ spelling first message.payload ++ rest) }
{}
