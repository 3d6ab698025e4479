//! Atomic DEVS models: their messages, their transitions at a tick, and the least time advance of
//! several models.

ghost use Rattle.std.specs.Prelude.{◌≡◌, ◌<◌, ◌↔◌, ◌≤◌, ℕ, Option, Some, IsSome, IfSome, true, false, None, All, List, length, slice_index_or};
ghost use Rattle.qss_components.specs.Prelude.{Machine};
ghost use Rattle.qss_components.specs.ComponentPlaces.{EachAt};
ghost use Rattle.qss_components.specs.Messages.{IsMessage, HasSmallLevel, IsTimely, passes_limit};
ghost use Rattle.qss_components.specs.declared.atomic.Message.{Message as Sent};
ghost use Rattle.qss_components.specs.declared.atomic.Transition.TheVariants.{Rests, ExceedsLimit, Sends};

use mu_num::{LEVEL_BITS, SLOPE_BITS, exceeds_power_of_two};

/// An atomic model (Zeigler, Praehofer and Kim, Theory of Modeling and Simulation). It sends a
/// message with each internal transition, and changes by an external transition when it receives
/// one.
pub trait Atomic {
    /// The machine of the component.
    ghost part_of: { Self → Machine };

    /// The tick of its last transition.
    ghost own_tick: { Self → ℕ };

    /// Whether this is a possible tick of its next internal transition, or `None` if there is none.
    ghost is_next: { Self → Option ℕ → Type 0 };

    /// Whether it may send this message with an internal transition at this tick.
    ghost sends: { Self → ℕ → Sent → Type 0 };

    /// Whether this is a possible model after an internal transition at this tick with this
    /// message.
    ghost turns: { Self → ℕ → Sent → Self → Type 0 };

    /// Whether the states that it reads are within their limits at a tick.
    ghost has_small: { Self → ℕ → Type 0 };

    /// Whether this is the model after it received a message at a tick.
    ghost given: { Self → ℕ → Sent → Self → Type 0 };

    /// The tick of the next internal transition.
    fn advance(&self) -> Option<u64>
        ensures next { is_next self.now result }
        ensures only { (next : Option ℕ) → is_next self.now next → next ≡ result };

    /// The message of that transition.
    fn output(&self) -> Option<Message>
        ensures when { (next : Option ℕ) → is_next self.now next
            → (IsSome result ↔ IsSome next) }
        ensures what { (tick : ℕ) → is_next self.now (Some tick)
            → IfSome result (sends self.now tick) };

    /// Makes that transition. The next one is later, or there is none.
    fn internal(&mut self)
        requires due { (tick : ℕ) × is_next self.old (Some tick) }
        requires size_limit { (tick : ℕ) (sent : Sent) → is_next self.old (Some tick)
            → sends self.old tick sent → HasSmallLevel sent }
        ensures turned { (tick : ℕ) → is_next self.old (Some tick)
            → (sent : Sent) × sends self.old tick sent × turns self.old tick sent self.new }
        ensures later { (tick next : ℕ) → is_next self.old (Some tick)
            → is_next self.new (Some next) → tick < next };

    /// Receives a message at a tick below 2^32. The tick is not before its last transition and not
    /// after its next one. The message is about a variable of its machine and within the limits of
    /// messages.
    fn external(&mut self, tick: u64, msg: Message)
        requires timely { IsTimely (own_tick self.old) (is_next self.old) tick }
        requires message { IsMessage (part_of self.old) msg }
        requires size_limit { has_small self.old tick }
        ensures { given self.old tick msg self.new };
}

/// A message about a variable or a condition. Variables are numbered from 0, states before discrete
/// variables. Slopes and states are at most 2^88 in absolute value, levels and discrete values at
/// most 2^43.
#[derive(Clone, Copy)]
pub enum Message {
    /// The slope of a state: its increment per tick, in units of 2^-(f+p+k).
    Slope { var: u32, slope: i128 },
    /// The state after a handler reinitialized it, in units of 2^-(f+p+k).
    State { var: u32, state: i128 },
    /// The new level of a state, in units of 2^-f.
    Level { var: u32, level: i128 },
    /// The value that a handler assigned to a discrete variable, in units of 2^-f.
    Discrete { var: u32, value: i64 },
    /// The truth value of a condition. Conditions are numbered from 0 in source order.
    Truth { condition: u32, now: bool },
}

/// The outcome of a model's turn at a tick.
#[derive(Clone, Copy)]
pub enum Transition {
    /// It is not due.
    Rests,
    /// Its message would exceed its limit. It makes no transition.
    ExceedsLimit,
    /// It made its transition and sent this message.
    Sends(Message),
}

/// Makes the transition of a model at a tick, if it is due, unless its message exceeds its limit.
#[tactic(none)]
pub fn make_transition<A: Atomic>(model: &mut A, tick: u64) -> Transition
    requires { (a b : Sent) → A.sends model.old tick a → A.sends model.old tick b → a ≡ b }
    ensures rests { result ≡ Rests
        → (model.new ≡ model.old) × (A.is_next model.old (Some tick) → ⊥) }
    ensures passes { result ≡ ExceedsLimit
        → (model.new ≡ model.old) × A.is_next model.old (Some tick)
        × ((a : Sent) × A.sends model.old tick a × (passes_limit a ≡ true)) }
    ensures sends { (a : Sent) → result ≡ Sends a → A.is_next model.old (Some tick)
        × A.sends model.old tick a × (passes_limit a ≡ false)
        × A.turns model.old tick a model.new }
    ensures later { (a : Sent) (next : ℕ) → result ≡ Sends a
        → A.is_next model.new (Some next) → tick < next }
{
    if !is_due(model, tick) {
        return Transition::Rests;
    }
    let msg = match model.output() {
        Some(msg) => msg,
        None => return Transition::Rests,
    };
    if is_atomic_past_limit(msg) {
        return Transition::ExceedsLimit;
    }
    model.internal();
    Transition::Sends(msg)
}

/// The least tick of the next internal transitions of models, or `until` if none is earlier.
pub fn least_advance<A: Atomic>(models: &[A], until: u64) -> u64
    ensures within { result ≤ until }
    ensures not_past { All (λ a. (next : ℕ) → A.is_next a (Some next) → result ≤ next) models.now }
    ensures later { (tick : ℕ) → tick < until
        → All (λ a. (next : ℕ) → A.is_next a (Some next) → tick < next) models.now
        → tick < result }
    ensures dues { (dues : List (Option ℕ)) × (length dues ≡ length models.now)
        × EachAt (λ place a. A.is_next a (slice_index_or dues place None)) models.now }
{
    let mut least = until;
    for place in 0..models.len() {
        least = earlier_atomic_advance(&models[place], least);
    }
    least
}

/// Whether a model makes its next internal transition at a tick.
pub fn is_due<A: Atomic>(model: &A, tick: u64) -> bool
    ensures due { result ≡ true → A.is_next model.now (Some tick) }
    ensures only { (next : ℕ) → result ≡ true → A.is_next model.now (Some next) → next ≡ tick }
    ensures other { result ≡ false → A.is_next model.now (Some tick) → ⊥ }
    ensures next { (next : Option ℕ) × A.is_next model.now next }
{
    match model.advance() {
        Some(next) => next == tick,
        None => false,
    }
}

// Whether the level or the slope of a message exceeds its limit.
fn is_atomic_past_limit(msg: Message) -> bool
    ensures { result ≡ passes_limit msg }
{
    match msg {
        Message::Slope { slope, .. } => exceeds_power_of_two(slope, SLOPE_BITS),
        Message::Level { level, .. } => exceeds_power_of_two(level, LEVEL_BITS),
        Message::State { .. } | Message::Discrete { .. } | Message::Truth { .. } => false,
    }
}

// The earlier of `least` and the tick of a model's next internal transition.
fn earlier_atomic_advance<A: Atomic>(model: &A, least: u64) -> u64
    ensures within { result ≤ least }
    ensures not_past { (next : ℕ) → A.is_next model.now (Some next) → result ≤ next }
    ensures later { (tick : ℕ) → tick < least
        → ((next : ℕ) → A.is_next model.now (Some next) → tick < next) → tick < result }
    ensures due { (due : Option ℕ) × A.is_next model.now due }
{
    match model.advance() {
        Some(next) => { if next < least { next } else { least } }
        None => least,
    }
}
