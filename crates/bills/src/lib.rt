// Bills for employers that no case has: both charges for one change of employer.
#![tactic(auto)]

use measures::Pence;

mod employers;

pub use employers::change_call;

// One change of employer in year 2: each employer's pay and days in that year, and the final year's price increase in
// thousandths.
#[derive(Clone, Copy)]
pub struct Change {
    pub old_pay: Pence,
    pub old_days: u64,
    pub new_pay: Pence,
    pub new_days: u64,
    pub price_increase: u64,
}
