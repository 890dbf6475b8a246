// What schedules and account hours come to at settlement: the result of a schedule, what it registers in its account hour, the hour's
// figures, and the operators' balances.
#![tactic(auto)]

pub mod balances;
pub mod congruity;
pub mod hours;
pub mod prices;
pub mod registered;

use rules::Balance;
use units::Kwh;

// What a registered schedule injects, withdraws and carries as CCT.
#[derive(Clone, Copy)]
pub struct Carried {
    pub injected: Kwh,
    pub withdrawn: Kwh,
    pub cct: Balance,
}
