//! The words of a command line, and the range that they ask for.

ghost use Rattle.std.specs.Prelude.{◌≡◌, ◌<◌, ◌≤◌, IfSome, MatchOption, Some, codes, map, min};
ghost use Rattle.std.specs.String.{string_bytes};
ghost use Rattle.prl_base.specs.Decimals.{decimal_of};
ghost use Rattle.prl_io.specs.Pairs.{value_of};
ghost use Rattle.prl_plot.specs.Asked.{IsRange, default_end, held_until};

use prl_drawing::{Scale, Unit, unit_of};
use prl_io::{number_up_to, value_of};
use prl_steps::{Flow, Sample};

/// The greatest tick that may be asked for.
pub const MAX_UNTIL: u64 = 2_147_483_647;

/// The form of the words.
pub const FORM: &str =
    "prelude_plot [--program FILE [--node NAME] --sensors FILE] [--actuators FILE] \
    [--flow NAME,..] [--from TICK] [--until TICK] [--tick TIME], or --help";

/// What the options mean.
pub const HELP: &str = "prelude_plot [OPTION VALUE ..] > PLOT.svg\n\
    Draws rows of sensors and actuators over time: a small plot for each flow on one axis.\n\n\
    --sensors FILE    the rows of the sensors, as `prelude run` reads them: NAME,INSTANCE,VALUE;\n\
    \x20                 their dates are those of the program's clocks, so this asks for --program\n\
    --program FILE    the program\n\
    --node NAME       its main node; the last one where nothing is said\n\
    --actuators FILE  the rows of the actuators, as `prelude run` writes them:\n\
    \x20                 NAME,INSTANCE,DATE,VALUE\n\
    --flow NAME,..    these flows alone\n\
    --from TICK       from this tick on; 0 where nothing is said\n\
    --until TICK      before this tick; where nothing is said, until each last value has held as\n\
    \x20                 long as the one before it\n\
    --tick TIME       times on the axis: how long a tick is, as 0.1ms, 250us or 1s\n\
    --help            this text\n\n\
    A value holds from its date to the next. Each flow has its own scale, from its least to its\n\
    greatest value in the range; where 0 lies between, a dashed line is there. Truth values are\n\
    bands, filled where true. Values that begin within one pixel are a bar over all of them.\n";

/// The options of the words.
pub static OPTIONS: [&[u8]; 8] = [
    b"--program",
    b"--node",
    b"--sensors",
    b"--actuators",
    b"--flow",
    b"--from",
    b"--until",
    b"--tick",
];

/// The first tick that the words ask for.
fn first_of(words: &[String]) -> Option<u64>
    ensures small { IfSome result (λ tick. tick ≤ MAX_UNTIL) }
    ensures exact { IfSome result (λ tick. MatchOption (value_of (codes "--from") (map string_bytes words.now)) (tick ≡ 0) (λ word. decimal_of word ≡ Some tick)) }
{
    match value_of(b"--from", words) {
        None => Some(0),
        Some(word) => number_up_to(MAX_UNTIL, word),
    }
}

/// The tick up to which a flow's last value holds as long as the one before it; the next tick where it is the only one.
fn end_of(samples: &[Sample]) -> u64
    ensures { result ≡ min (held_until samples.now) MAX_UNTIL }
{
    let count = samples.len();
    if count == 0 {
        return 0;
    }
    let last = samples[count - 1].date;
    let held = if count == 1 {
        1
    } else {
        last.saturating_sub(samples[count - 2].date)
    };
    last.saturating_add(held).min(MAX_UNTIL)
}

/// The tick after the range where the words do not tell it.
fn default_end(flows: &[Flow], from: u64) -> u64
    requires { from < MAX_UNTIL }
    ensures { result ≡ default_end flows.now from }
{
    let mut end = from + 1;
    for back in 0..flows.len() {
        end = end_of(flows[flows.len() - 1 - back].samples()).max(end);
    }
    end
}

/// The tick after the last one that the words ask for.
#[tactic(auto, using(crate::proofs::Ends::end_within))]
fn last_of(words: &[String], flows: &[Flow], from: u64) -> Option<u64>
    ensures small { IfSome result (λ tick. tick ≤ MAX_UNTIL) }
    ensures exact { IfSome result (λ tick. MatchOption (value_of (codes "--until") (map string_bytes words.now)) (tick ≡ default_end flows.now from) (λ word. decimal_of word ≡ Some tick)) }
{
    match value_of(b"--until", words) {
        None => {
            if from < MAX_UNTIL {
                Some(default_end(flows, from))
            } else {
                None
            }
        }
        Some(word) => number_up_to(MAX_UNTIL, word),
    }
}

/// The range that the words ask for.
pub(crate) fn range_of(words: &[String], flows: &[Flow]) -> Option<Scale>
    ensures { IfSome result (IsRange (map string_bytes words.now) flows.now) }
{
    let from = first_of(words)?;
    let until = last_of(words, flows, from)?;
    if until <= from {
        return None;
    }
    Some(Scale {
        from,
        until,
        span: until - from,
    })
}

/// How long a tick is by the words.
pub(crate) fn tick_unit(words: &[String]) -> Option<Unit> {
    match value_of(b"--tick", words) {
        None => Some(Unit::ticks()),
        Some(word) => unit_of(word),
    }
}
