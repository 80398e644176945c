// Scheme Pays debits: refusals 11 and 14, and the net amounts.
// Sections and schemes are the numbers of their frames: what is promised here is promised for any number, which an enum would not hold.
#![tactic(auto)]

ghost use Rattle.std.specs.Prelude.{◌≡◌, ◌≤◌};
ghost use Rattle.measures.specs.Refusals.{refused_by};
ghost use Rattle.measures.specs.Tries.{tried};
ghost use Rattle.benefits.specs.Limits.{highest_pot, highest_amount};
ghost use Rattle.rules.specs.Amounts.{ups_reduced};
ghost use Rattle.rules.specs.Outcomes.{outcome_numbers};
ghost use Rattle.debits.specs.Debits.{no_debits, debit_fields, with_debit, debit_by, pension_if, lump_if, debits_of, covered, net_of};

use benefits::{lump_debit, pension_debit};
use frames::{Debit, check_debit};
use measures::{Counted, Pence, Refusal, upward};
use rules::{Amounts, RefusalAt, SchemeAmounts};
use std::marker::Model;

// No debit.
const NO_DEBIT: Counted = Counted {
    amount: Pence(0),
    ups: 0,
};

// The scheme of the previous 06, and the pension debit of each scheme, with 1 where it was rounded up; no debit is above that of the highest pot.
#[derive(Clone, Copy)]
pub struct DebitsState {
    previous: Option<u64>,
    pension2015: Counted,
    pension1995: Counted,
}

impl Model for DebitsState {
    ghost use Rattle.debits.specs.Value.{DebitsValue};

    ghost Value = { DebitsValue };

    ghost use Rattle.debits.specs.Debits.{DebitsBounds};

    ghost view = { λ s. record { previous = s.previous; pension2015 = s.pension2015; pension1995 = s.pension1995 } };

    ghost invariant = { λ s. DebitsBounds (record { previous = s.previous; pension2015 = s.pension2015; pension1995 = s.pension1995 }) };

    ghost inverse = { λ v. record { previous = v.previous; pension2015 = v.pension2015; pension1995 = v.pension1995 } };
}

// The debit of an 06 where it is of that scheme, else the debit before.
#[tactic(auto, using(measures::proofs::Tests::tests), unfolding(crate::specs::Debits::debit_by))]
fn debit_by(before: Counted, scheme: u64, d: Debit) -> Counted
    requires { (d.pot.0 ≤ highest_pot) × (1 ≤ d.factor) }
    ensures { result ≡ debit_by before scheme d }
{
    if d.scheme != scheme {
        return before;
    }
    let debit = pension_debit(d.pot, d.factor);
    Counted {
        amount: debit.value,
        ups: upward(debit.way),
    }
}

// Whether each debit is covered by what it is taken from.
fn is_covered(gross: SchemeAmounts, debits: SchemeAmounts) -> bool
    ensures { result ≡ covered gross debits }
{
    debits.pension2015 <= gross.pension2015
        && debits.pension1995 <= gross.pension1995
        && debits.lump_sum <= gross.lump_sum
}

// What is left of the amounts after the debits, or 14.
#[tactic(auto, using(crate::proofs::Debits::debits_fit_lem), unfolding(crate::specs::Debits::net_of, rules::specs::Working::worked_unless))]
fn net(gross: SchemeAmounts, debits: SchemeAmounts, charged: Counted) -> Result<Amounts, RefusalAt>
    requires { (gross.ups ≤ ups_reduced) × (debits.ups ≤ 2) × (charged.ups ≤ 5) }
    ensures { outcome_numbers result ≡ net_of gross debits charged.amount.0 charged.ups }
{
    if !is_covered(gross, debits) {
        return Err(RefusalAt {
            refusal: Refusal::DebitAbove,
            line: 0,
        });
    }
    Ok(Amounts {
        net_2015: Pence(gross.pension2015.0 - debits.pension2015.0),
        net_1995: Pence(gross.pension1995.0 - debits.pension1995.0),
        net_lump_sum: Pence(gross.lump_sum.0 - debits.lump_sum.0),
        charge: charged.amount,
        ups: gross.ups + debits.ups + charged.ups,
    })
}

// The debit of the section's pension, 0 without a section.
#[tactic(auto, using(measures::proofs::Tests::tests), unfolding(crate::specs::Debits::pension_if))]
fn pension_if(section: u64, debit: Counted) -> Counted
    ensures { (result.amount.0 ≡ pension_if section debit.amount.0) × (result.ups ≡ pension_if section debit.ups) }
{
    if section == 0 { NO_DEBIT } else { debit }
}

// The debit of the lump sum that goes with it: there is one in the 1995 Section alone.
#[tactic(auto, using(measures::proofs::Tests::tests), unfolding(crate::specs::Debits::lump_if))]
fn lump_if(section: u64, debit: Pence) -> Pence
    requires { debit.0 ≤ highest_amount }
    ensures { result.0 ≡ lump_if section debit.0 }
{
    if section != 1 {
        return Pence(0);
    }
    lump_debit(debit)
}

impl DebitsState {
    // No 06 yet.
    pub fn none() -> DebitsState
        ensures { result ≡ no_debits }
    {
        DebitsState {
            previous: None,
            pension2015: NO_DEBIT,
            pension1995: NO_DEBIT,
        }
    }

    // Refusal 11 of an 06 after the previous one.
    #[tactic(auto, using(measures::proofs::Tests::tests), unfolding(crate::specs::Debits::debit_fields))]
    fn check(&self, section: u64, d: Debit) -> Result<(), Refusal>
        ensures { refused_by result ≡ debit_fields section self.now d }
    {
        check_debit(d, section)?;
        match self.previous {
            Some(scheme) if d.scheme <= scheme => Err(Refusal::Debit),
            _ => Ok(()),
        }
    }

    // An 06 taken: the debit of its scheme.
    #[tactic(auto, using(measures::proofs::Refused::never_nought, crate::proofs::Debits::fields_good, crate::proofs::Debits::debit_within), unfolding(measures::specs::Tries::tried, crate::specs::Debits::with_debit))]
    pub fn take_debit(&mut self, section: u64, d: Debit) -> Result<(), Refusal>
        ensures refusal { refused_by result ≡ debit_fields section self.old d }
        ensures debits { self.new ≡ tried (debit_fields section) with_debit self.old d }
    {
        self.check(section, d)?;
        self.previous = Some(d.scheme);
        self.pension2015 = debit_by(self.pension2015, 0, d);
        self.pension1995 = debit_by(self.pension1995, 1, d);
        Ok(())
    }

    // The debit of each amount: scheme 1's with a section, and the lump sum's with it in the 1995 Section alone.
    #[tactic(auto, using(crate::proofs::Debits::pension_if_most, crate::proofs::Debits::debits_ups), unfolding(crate::specs::Debits::debits_of))]
    fn amounts(&self, section: u64) -> SchemeAmounts
        ensures amounts { result ≡ debits_of section self.now }
        ensures ups { result.ups ≤ 2 }
    {
        let own = pension_if(section, self.pension1995);
        SchemeAmounts {
            pension2015: self.pension2015.amount,
            pension1995: own.amount,
            lump_sum: lump_if(section, own.amount),
            ups: self.pension2015.ups + own.ups,
        }
    }

    // The outcome of a case: what is left of the amounts after the debits, or 14.
    pub fn outcome(
        &self,
        section: u64,
        gross: SchemeAmounts,
        charged: Counted,
    ) -> Result<Amounts, RefusalAt>
        requires { (gross.ups ≤ ups_reduced) × (charged.ups ≤ 5) }
        ensures { outcome_numbers result ≡ net_of gross (debits_of section self.now) charged.amount.0 charged.ups }
    {
        net(gross, self.amounts(section), charged)
    }
}
