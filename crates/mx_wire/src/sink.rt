// Where the program prints.
ghost use Rattle.std.specs.Prelude.{◌≡◌, ℕ, List, Option, OnOk, OnErr, IsErr};
ghost use Rattle.mx_wire.specs.Tells.{HasCause};
ghost use Rattle.mx_wire.specs.Outside.{Takes, TakesFront};

/// The sink failed.
#[derive(Clone, Copy, Debug)]
pub struct SinkFailed;

/// Where the program prints.
pub trait Sink {
    /// The bytes that it took so far, where it tells them.
    ghost taken: { Self → Option (List ℕ) };

    /// How often it has failed.
    ghost faults: { Self → ℕ };

    /// Puts the bytes behind those that it took. After a failure a front of them was taken; a failure comes only
    /// where `faults` rose.
    fn put(&mut self, bytes: &[u8]) -> Result<(), SinkFailed>
        ensures ok { OnOk result (Takes (taken self.old) bytes.now (taken self.new)) }
        ensures err { OnErr result (TakesFront (taken self.old) bytes.now (taken self.new)) }
        ensures cause { HasCause (IsErr result) (faults self.old) (faults self.new) };
}
