//! How the faults of the crates below are told as stops of the command's stages: want of memory is told as such, and each other
//! fault as a refusal of its stage.

ghost use Rattle.std.specs.Prelude.{◌≡◌};
ghost use Rattle.prl_stages.specs.declared.stages.Stage.TheVariants.{Grammar, Types, Bodies, Expansion, Causality, Clocks, Graph, Words, Cells, Values};
ghost use Rattle.prl_stages.specs.Told.{stop_of, told_parse, told_types, told_body, told_expand, told_causal, told_clocks, told_graph, told_words, told_cells, told_flow};

use crate::faults::{BodiesRefusal, ClocksRefusal, Fault, GrammarRefusal, GraphRefusal};
use crate::stages::{Stage, Stop};
use prl_body::BodyFault;
use prl_buffers::CellFault;
use prl_clock::ClockFault;
use prl_evaluation::FlowFault;
use prl_expand::{CausalFault, ExpandFault};
use prl_graph::GraphFault;
use prl_syntax::ParseFault;
use prl_types::TypeFault;
use prl_words::WordFault;

impl From<ParseFault> for Stop {
    ghost from_gives = { λ fault stop. stop ≡ stop_of Grammar (told_parse fault) };

    fn from(fault: ParseFault) -> Stop {
        let refusal = match fault {
            ParseFault::BadToken(at) => GrammarRefusal::BadToken(at),
            ParseFault::Unexpected(at) => GrammarRefusal::Unexpected(at),
            ParseFault::NumberRange(at) => GrammarRefusal::NumberRange(at),
            ParseFault::Limit(limit) => GrammarRefusal::Limit(limit),
            ParseFault::Memory => return Stop::Memory,
        };
        Stop::Refused(Stage::Grammar, Fault::Grammar(refusal))
    }
}

impl From<TypeFault> for Stop {
    ghost from_gives = { λ fault stop. stop ≡ stop_of Types (told_types fault) };

    fn from(fault: TypeFault) -> Stop {
        match fault {
            TypeFault::Memory => Stop::Memory,
            fault => Stop::Refused(Stage::Types, Fault::Types(fault)),
        }
    }
}

impl From<BodyFault> for Stop {
    ghost from_gives = { λ fault stop. stop ≡ stop_of Bodies (told_body fault) };

    fn from(fault: BodyFault) -> Stop {
        let refusal = match fault {
            BodyFault::Syntax(at) => BodiesRefusal::Syntax(at),
            BodyFault::Limit(limit) => BodiesRefusal::Limit(limit),
            BodyFault::BodyName(at) => BodiesRefusal::BodyName(at),
            BodyFault::BodyType(at) => BodiesRefusal::BodyType(at),
            BodyFault::BodyArity(at) => BodiesRefusal::BodyArity(at),
            BodyFault::Missing(name) => BodiesRefusal::Missing(name),
            BodyFault::Memory => return Stop::Memory,
        };
        Stop::Refused(Stage::Bodies, Fault::Bodies(refusal))
    }
}

impl From<ExpandFault> for Stop {
    ghost from_gives = { λ fault stop. stop ≡ stop_of Expansion (told_expand fault) };

    fn from(fault: ExpandFault) -> Stop {
        match fault {
            ExpandFault::Limit(limit) => Stop::Refused(Stage::Expansion, Fault::Limit(limit)),
            ExpandFault::Memory => Stop::Memory,
        }
    }
}

impl From<CausalFault> for Stop {
    ghost from_gives = { λ fault stop. stop ≡ stop_of Causality (told_causal fault) };

    fn from(fault: CausalFault) -> Stop {
        match fault {
            CausalFault::Cycle(label) => Stop::Refused(Stage::Causality, Fault::Cycle(label)),
            CausalFault::Memory => Stop::Memory,
        }
    }
}

impl From<ClockFault> for Stop {
    ghost from_gives = { λ fault stop. stop ≡ stop_of Clocks (told_clocks fault) };

    fn from(fault: ClockFault) -> Stop {
        let refusal = match fault {
            ClockFault::Mismatch(at) => ClocksRefusal::Mismatch(at),
            ClockFault::Limit(limit) => ClocksRefusal::Limit(limit),
            ClockFault::Free(label) => ClocksRefusal::Free(label),
            ClockFault::NotWhole {
                flow,
                period,
                start,
            } => ClocksRefusal::NotWhole {
                flow,
                period,
                start,
            },
            ClockFault::Memory => return Stop::Memory,
        };
        Stop::Refused(Stage::Clocks, Fault::Clocks(refusal))
    }
}

impl From<GraphFault> for Stop {
    ghost from_gives = { λ fault stop. stop ≡ stop_of Graph (told_graph fault) };

    fn from(fault: GraphFault) -> Stop {
        let refusal = match fault {
            GraphFault::DueOnNonTask(label) => GraphRefusal::DueOnNonTask(label),
            GraphFault::DueRange { flow, due, period } => {
                GraphRefusal::DueRange { flow, due, period }
            }
            GraphFault::Limit(limit) => GraphRefusal::Limit(limit),
            GraphFault::Memory => return Stop::Memory,
        };
        Stop::Refused(Stage::Graph, Fault::Graph(refusal))
    }
}

impl From<WordFault> for Stop {
    ghost from_gives = { λ fault stop. stop ≡ stop_of Words (told_words fault) };

    fn from(fault: WordFault) -> Stop {
        match fault {
            WordFault::Limit(limit) => Stop::Refused(Stage::Words, Fault::Limit(limit)),
            WordFault::Memory => Stop::Memory,
        }
    }
}

impl From<CellFault> for Stop {
    ghost from_gives = { λ fault stop. stop ≡ stop_of Cells (told_cells fault) };

    fn from(fault: CellFault) -> Stop {
        match fault {
            CellFault::Limit(limit) => Stop::Refused(Stage::Cells, Fault::Limit(limit)),
            CellFault::Memory => Stop::Memory,
        }
    }
}

impl From<FlowFault> for Stop {
    ghost from_gives = { λ fault stop. stop ≡ stop_of Values (told_flow fault) };

    fn from(fault: FlowFault) -> Stop {
        match fault {
            FlowFault::Limit(limit) => Stop::Refused(Stage::Values, Fault::Limit(limit)),
            FlowFault::Memory => Stop::Memory,
        }
    }
}
