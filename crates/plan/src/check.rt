// The check of a plan: lines 1 to 7 of the refusal table.
ghost use Rattle.std.specs.Prelude.{◌≡◌, IfOk};
ghost use Rattle.plan.specs.Refusals.{refusal, number_of};

use crate::accepted::AcceptedPlan;
use crate::records::Records;
use crate::refusal::Refusal;
use crate::{belts, chain, form, notes};

// Checks any bytes as a plan: they are accepted, or refused by the first broken one of lines 1 to 7.
pub fn check(p: &[u8]) -> Result<AcceptedPlan<'_>, Refusal>
    ensures number { number_of result ≡ refusal p.now }
    ensures bytes { IfOk result (λ plan. plan.bytes.now ≡ p.now) }
{
    let Some(plan) = Records::new(p) else {
        return Err(Refusal::WrongSize);
    };
    if form::wrong_header(plan) {
        return Err(Refusal::WrongHeader);
    }
    if form::wrong_record(plan) {
        return Err(Refusal::WrongRecord);
    }
    if chain::wrong_chain(plan) {
        return Err(Refusal::WrongChain);
    }
    if belts::backward_belt(plan) {
        return Err(Refusal::BackwardBelt);
    }
    if belts::wrong_literal(plan) {
        return Err(Refusal::WrongLiteral);
    }
    if notes::many_named(plan) {
        return Err(Refusal::ManyNamed);
    }
    Ok(AcceptedPlan { bytes: plan.bytes })
}
