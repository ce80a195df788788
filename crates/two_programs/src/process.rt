// Processes of this program.
use std::io::{self, Write};
use std::process::{Child, Command, Stdio};
use std::thread;
use std::time::Duration;

/// How often something is tried that takes its time: for 20 seconds.
pub const MOST_TRIES: u32 = 1_000;

/// Waits between two tries.
pub fn pause(rt: &HostRuntime) {
    thread::sleep(rt, Duration::from_millis(20));
}

/// A process of this program. It ends with the value, if not before.
pub struct Process {
    child: Child,
}

impl Drop for Process {
    fn drop(self) {
        let Process { mut child } = self;
        let _ = child.kill();
        let _ = child.wait();
    }
}

impl Process {
    /// Starts the program in a role. What it prints isn't shown.
    pub fn start(
        rt: &HostRuntime,
        program: &str,
        role: &str,
        ports: &[u16],
    ) -> io::Result<Process> {
        let alloc = rt.alloc();
        let mut command = Command::new(alloc, program)?;
        command.arg(role)?;
        for port in ports {
            command.arg(format!(in alloc; "{port}")?)?;
        }
        command.stdin(Stdio::piped()).stdout(Stdio::null());
        Ok(Process {
            child: command.spawn(rt)?,
        })
    }

    /// Gives the process its whole input.
    pub fn give(&mut self, input: &[u8]) -> io::Result<()> {
        match self.child.stdin.take() {
            Some(mut pipe) => pipe.write_all(input),
            None => Ok(()),
        }
    }

    /// How the process ends, which it has to do in time.
    pub fn ending(&mut self, rt: &HostRuntime) -> io::Result<String> {
        for _ in 0..MOST_TRIES {
            if let Some(status) = self.child.try_wait()? {
                return Ok(format!(in rt.alloc(); "{status}")?);
            }
            pause(rt);
        }
        Ok(String::from_str(rt.alloc(), "none")?)
    }
}
