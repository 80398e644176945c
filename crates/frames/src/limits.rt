// The refusals of a frame's fields, by the frame itself and the member's section.
// Sections and schemes are the numbers of their frames: what is promised here is promised for any number, which an enum would not hold.
ghost use Rattle.std.specs.Prelude.{◌≡◌};
ghost use Rattle.measures.specs.Refusals.{refused_by};
ghost use Rattle.frames.specs.Limits.{section_pension_age, member_refusal, year_stands, scheme_stands, has_lump_sum, factor_refusal, debit_refusal};

use super::{Debit, Factor, Member, Year};
use benefits::{HIGHEST_EARLY_FACTOR, HIGHEST_POT, HIGHEST_REVALUATION};
use calendar::check_dates;
use measures::Refusal;

// The pension age of a section, 0 for none.
#[tactic(auto, using(measures::proofs::Tests::tests))]
fn section_pension_age(section: u64) -> u64
    ensures { result ≡ section_pension_age section }
{
    match section {
        1 => 60,
        2 => 65,
        _ => 0,
    }
}

// Refuses a date, the pension age or the section of a member that is out of its range; then another pension age than the section's.
#[tactic(auto, using(measures::proofs::Tests::tests), unfolding(crate::specs::Limits::member_refusal))]
pub fn check_member(m: Member) -> Result<(), Refusal>
    ensures { refused_by result ≡ member_refusal m }
{
    check_dates(m.birth, m.retirement, m.pension_age)?;
    if 2 < m.section {
        return Err(Refusal::Dates);
    }
    if m.section_pension_age != section_pension_age(m.section) {
        return Err(Refusal::SectionAge);
    }
    Ok(())
}

// Whether the fields of a year stand by themselves (6 otherwise).
#[tactic(auto, using(measures::proofs::Tests::tests), unfolding(crate::specs::Limits::year_stands))]
pub fn year_stands(y: Year) -> bool
    ensures { result ≡ year_stands y }
{
    2015 <= y.april && y.april <= 2100 && y.revaluation <= HIGHEST_REVALUATION
}

// Whether a scheme is the 2015, or 1 for a member with a section.
#[tactic(auto, using(measures::proofs::Tests::tests), unfolding(crate::specs::Limits::scheme_stands))]
fn scheme_stands(scheme: u64, section: u64) -> bool
    ensures { result ≡ scheme_stands scheme section }
{
    scheme == 0 || scheme == 1 && section != 0
}

// Whether a lump sum goes with a scheme: with scheme 1 in the 1995 Section.
#[tactic(auto, using(measures::proofs::Tests::tests), unfolding(crate::specs::Limits::has_lump_sum))]
fn has_lump_sum(scheme: u64, section: u64) -> bool
    ensures { result ≡ has_lump_sum scheme section }
{
    scheme == 1 && section == 1
}

// Refuses a factor frame with a field out of its range.
#[tactic(auto, using(measures::proofs::Tests::tests), unfolding(crate::specs::Limits::factor_refusal))]
pub fn check_factor(f: Factor, section: u64) -> Result<(), Refusal>
    ensures { refused_by result ≡ factor_refusal f section }
{
    let stands = scheme_stands(f.scheme, section)
        && 1 <= f.months.0
        && f.months.0 <= 600
        && f.pension <= HIGHEST_EARLY_FACTOR
        && f.lump <= HIGHEST_EARLY_FACTOR
        && (f.lump == 0 || has_lump_sum(f.scheme, section));
    if stands { Ok(()) } else { Err(Refusal::Factor) }
}

// Refuses a debit frame with a field out of its range.
#[tactic(auto, using(measures::proofs::Tests::tests), unfolding(crate::specs::Limits::debit_refusal))]
pub fn check_debit(d: Debit, section: u64) -> Result<(), Refusal>
    ensures { refused_by result ≡ debit_refusal d section }
{
    if scheme_stands(d.scheme, section) && d.pot.0 <= HIGHEST_POT && 1 <= d.factor {
        Ok(())
    } else {
        Err(Refusal::Debit)
    }
}
