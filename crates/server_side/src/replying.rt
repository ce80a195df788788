// The reply to a command.
ghost use Rattle.std.specs.Prelude.{◌≡◌};

use crate::backend::Backend;
use crate::fault::BackendFault;
use crate::hear::Heard;
use reply_track::{Progress, Tracker};

impl Backend {
    ghost use Rattle.std.specs.Option.{option_map};
    ghost use Rattle.server_side.specs.declared.command.Command.{Command};
    ghost use Rattle.server_side.specs.Hearing.{Tells, reply_due};

    // A piece of the reply to the command, which is due once a byte of that is written.
    pub(crate) fn hear_reply(&mut self, piece: &mut [u8]) -> Result<Heard, BackendFault>
        ensures { Tells result self.new (reply_due self.old.command piece.old self.old) }
    {
        let length = piece.len();
        let Some(command) = &self.command else {
            return Err(BackendFault::BadBytes { at: 0 });
        };
        if command.sent == 0 {
            return Err(BackendFault::BadBytes { at: 0 });
        }
        let mut tracker = command.tracker;
        match tracker.take(piece) {
            Progress::More => {
                self.reply.append(piece)?;
                self.follow(tracker);
                Ok(Heard::Part { used: length })
            }
            Progress::Done { used, .. } => {
                self.reply.append(&piece[..used])?;
                self.command = None;
                Ok(Heard::Whole { used })
            }
            Progress::Bad { at } => {
                let before = self.reply.as_slice().len();
                Err(BackendFault::BadBytes {
                    at: before as u64 + at as u64,
                })
            }
        }
    }

    // The reply to the command stands so.
    fn follow(&mut self, tracker: Tracker)
        ensures { self.new ≡ record self.old { command = option_map (λ (command : Command). record command { tracker = tracker }) self.old.command } }
    {
        if let Some(command) = &mut self.command {
            command.tracker = tracker;
        }
    }
}
