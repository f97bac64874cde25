ghost use Rattle.std.specs.Prelude.{◌≡◌, ◌<◌, ◌≤◌, IfOk, map};
ghost use Rattle.play_script.specs.declared.script.TheConstants.{CORE_N_MOST};
ghost use Rattle.play_script.specs.Reading as reading;

use crate::script::CORE_N_MOST;
use crate::words::Word;
use gate_core::{Act, Actor, SLOTS, Step};
use spie_base::{K_MOST, N_LEAST, PageShape, RouterId, Sig};
use trace_format::{WhyRefused, base_of, number};

// A number below a bound.
#[tactic(auto, unfolding(crate::specs::Reading::below))]
fn below(field: &[u8], bound: u32) -> Result<u32, WhyRefused>
    ensures value { result ≡ reading.below field.now bound }
    ensures within { IfOk result (λ n. n < bound) }
{
    let found = number(field, 0, u64::from(u32::MAX))? as u32;
    if found < bound {
        Ok(found)
    } else {
        Err(WhyRefused::Field)
    }
}

#[tactic(auto, unfolding(crate::specs::Reading::sig_of))]
fn sig_of(field: &[u8]) -> Result<Sig, WhyRefused>
    ensures { result ≡ reading.sig_of field.now }
{
    let mut bytes = [0u8; 28];
    match hex::decode_to_slice(field, &mut bytes) {
        Ok(()) => Ok(Sig { bytes }),
        Err(_) => Err(WhyRefused::Field),
    }
}

#[tactic(auto, unfolding(crate::specs::Reading::actor_in))]
fn actor_in(field: &[u8], passes: u32) -> Result<Actor, WhyRefused>
    ensures { result ≡ reading.actor_in passes field.now }
{
    if field == b"k".as_slice() {
        return Ok(Actor::Keeper);
    }
    Ok(Actor::Pass(below(field, passes)?))
}

/// What fixes the pages: the numbers and the seed of the second line.
#[tactic(auto, unfolding(crate::specs::Reading::shape_in))]
pub fn shape_in(k: &[u8], n: &[u8], base: &[u8]) -> Result<PageShape, WhyRefused>
    ensures value { result ≡ reading.shape_in k.now n.now base.now }
    ensures within { IfOk result (λ shape. shape.n ≤ CORE_N_MOST) }
{
    let k = number(k, 1, u64::from(K_MOST))? as u8;
    let n = number(n, u64::from(N_LEAST), u64::from(CORE_N_MOST))? as u8;
    let base = base_of(base)?;
    Ok(PageShape {
        k,
        n,
        base,
        router: RouterId { number: 0 },
    })
}

#[tactic(auto, unfolding(crate::specs::Reading::alone_in))]
fn alone_in(act: Act, rest: &[&[u8]]) -> Result<Act, WhyRefused>
    ensures { result ≡ reading.alone_in act (map (λ f. f.now) rest.now) }
{
    match rest {
        [] => Ok(act),
        _ => Err(WhyRefused::Fields),
    }
}

#[tactic(auto, unfolding(crate::specs::Reading::enter_in))]
fn enter_in(rest: &[&[u8]]) -> Result<Act, WhyRefused>
    ensures { result ≡ reading.enter_in (map (λ f. f.now) rest.now) }
{
    match rest {
        [sig] => Ok(Act::Enter(sig_of(sig)?)),
        _ => Err(WhyRefused::Fields),
    }
}

#[tactic(auto, unfolding(crate::specs::Reading::slot_in))]
fn slot_in(rest: &[&[u8]]) -> Result<u8, WhyRefused>
    ensures { result ≡ reading.slot_in (map (λ f. f.now) rest.now) }
{
    match rest {
        [slot] => Ok(below(slot, u32::from(SLOTS))? as u8),
        _ => Err(WhyRefused::Fields),
    }
}

#[tactic(auto, unfolding(crate::specs::Reading::probe_fields))]
fn probe_fields(slot: &[u8], at: &[u8], positions: u32) -> Result<Act, WhyRefused>
    ensures { result ≡ reading.probe_fields positions slot.now at.now }
{
    let slot = below(slot, u32::from(SLOTS))? as u8;
    Ok(Act::Probe(slot, below(at, positions)?))
}

#[tactic(auto, unfolding(crate::specs::Reading::probe_in))]
fn probe_in(rest: &[&[u8]], positions: u32) -> Result<Act, WhyRefused>
    ensures { result ≡ reading.probe_in positions (map (λ f. f.now) rest.now) }
{
    match rest {
        [slot, at] => probe_fields(slot, at, positions),
        _ => Err(WhyRefused::Fields),
    }
}

// The act of a word and the fields behind it.
#[tactic(auto, unfolding(crate::specs::Reading::act_in))]
fn act_in(word: Word, rest: &[&[u8]], positions: u32) -> Result<Act, WhyRefused>
    ensures { result ≡ reading.act_in positions word (map (λ f. f.now) rest.now) }
{
    match word {
        Word::Look => alone_in(Act::Look, rest),
        Word::Enter => enter_in(rest),
        Word::Set => alone_in(Act::Set, rest),
        Word::Leave => alone_in(Act::Leave, rest),
        Word::Seal => alone_in(Act::Seal, rest),
        Word::Settle => Ok(Act::Settle(slot_in(rest)?)),
        Word::Drain => Ok(Act::Drain(slot_in(rest)?)),
        Word::Open => Ok(Act::Open(slot_in(rest)?)),
        Word::Point => alone_in(Act::Point, rest),
        Word::Probe => probe_in(rest, positions),
    }
}

#[tactic(auto, unfolding(crate::specs::Reading::step_of))]
fn step_of(actor: Actor, act: Act) -> Result<Step, WhyRefused>
    ensures { result ≡ reading.step_of actor act }
{
    if actor.may_do(act) {
        Ok(Step { actor, act })
    } else {
        Err(WhyRefused::Field)
    }
}

/// The step of an actor's field, a word and the fields behind it. How many fields there are is judged before
/// any of them.
#[tactic(auto, unfolding(crate::specs::Reading::step_in))]
pub fn step_in(
    who: &[u8],
    word: Word,
    rest: &[&[u8]],
    passes: u32,
    positions: u32,
) -> Result<Step, WhyRefused>
    ensures { result ≡ reading.step_in passes positions who.now word (map (λ f. f.now) rest.now) }
{
    let act = act_in(word, rest, positions)?;
    let actor = actor_in(who, passes)?;
    step_of(actor, act)
}
