// The program's own clock.
use std::alloc::Global;
use std::time::Instant;

/// The microseconds of each step so far; they are not whole where the clock or memory failed once.
#[derive(Drop)]
pub struct Watch {
    last: Instant,
    steps: Vec<u128>,
    is_whole: bool,
}

impl Watch {
    /// A watch that starts now.
    pub fn start(rt: &HostRuntime) -> Option<Watch> {
        Some(Watch {
            last: Instant::now(rt).ok()?,
            steps: Vec::new(rt.alloc()),
            is_whole: true,
        })
    }

    /// Begins a step: what was done since the last one counts for none.
    pub fn begin(&mut self, rt: &HostRuntime) {
        match Instant::now(rt) {
            Ok(now) => self.last = now,
            Err(_) => self.is_whole = false,
        }
    }

    /// Ends a step and begins the next.
    pub fn lap(&mut self, rt: &HostRuntime) {
        let began = self.last;
        self.begin(rt);
        let took = self.last.saturating_duration_since(began).as_micros();
        self.is_whole &= self.steps.push(took).is_ok();
    }

    /// A line of the steps, each behind a blank; None where they are not whole.
    pub fn line(&self, alloc: Global) -> Option<Vec<u8>> {
        if !self.is_whole {
            return None;
        }
        let mut line = Vec::new(alloc);
        for step in self.steps.as_slice() {
            put_step(alloc, *step, &mut line)?;
        }
        line.push(b'\n').ok()?;
        Some(line)
    }
}

fn put_step(alloc: Global, step: u128, line: &mut Vec<u8>) -> Option<()> {
    let digits = format!(in alloc; " {step}").ok()?;
    line.extend_from_slice(digits.as_bytes()).ok()
}
