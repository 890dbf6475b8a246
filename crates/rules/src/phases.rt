// The phases of a day, and their numbers.
ghost use Rattle.std.specs.Prelude.{◌≡◌, ◌≤◌};
ghost use Rattle.rules.specs.Books.{registration_phase, settled_phase, phase_number};

#[derive(Clone, Copy, PartialEq, Eq)]
pub enum Phase {
    Registration = 1,
    Schedules = 2,
    Settled = 3,
}

// Their numbers, as specs/Books.antt has them.
pub const REGISTRATION: u8 = Phase::Registration as u8;

pub const SCHEDULES: u8 = Phase::Schedules as u8;

pub const SETTLED: u8 = Phase::Settled as u8;

impl Phase {
    // The phase of a number.
    pub fn of(number: u8) -> Phase
        requires { (registration_phase ≤ number) × (number ≤ settled_phase) }
        ensures { phase_number result ≡ number }
    {
        match number {
            REGISTRATION => Phase::Registration,
            SCHEDULES => Phase::Schedules,
            _ => Phase::Settled,
        }
    }
}
