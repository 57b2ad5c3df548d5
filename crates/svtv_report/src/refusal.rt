// The words of refusals.
ghost use Rattle.std.specs.Prelude.{◌≡◌};
ghost use Rattle.svtv_report.specs.Refusals.{word_of};

use sv_outside::refusals;

/// The word of a refusal, by its number; none for any other number.
pub(crate) fn word_of(number: u8) -> &'static [u8]
    ensures { result.now ≡ word_of number }
{
    match number {
        refusals::BAD_BYTE => b"BadByte",
        refusals::BAD_TOKEN => b"BadToken",
        refusals::INCLUDE_DEEP => b"IncludeDeep",
        refusals::TOO_LONG => b"TooLong",
        refusals::UNBALANCED => b"Unbalanced",
        refusals::MACRO_UNKNOWN => b"MacroUnknown",
        refusals::MACRO_DEEP => b"MacroDeep",
        refusals::SYNTAX => b"Syntax",
        refusals::TOO_DEEP => b"TooDeep",
        refusals::TOP_UNCLEAR => b"TopUnclear",
        refusals::UNKNOWN_MODULE => b"UnknownModule",
        refusals::UNKNOWN_NAME => b"UnknownName",
        refusals::TWICE => b"Twice",
        refusals::WIDTH => b"Width",
        refusals::CONST_UNKNOWN => b"ConstUnknown",
        refusals::LITERAL_RANGE => b"LiteralRange",
        refusals::PORT_UNKNOWN => b"PortUnknown",
        refusals::PORT_TWICE => b"PortTwice",
        refusals::BAD_TARGET => b"BadTarget",
        refusals::LOOP_LONG => b"LoopLong",
        refusals::INSTANCE_DEEP => b"InstanceDeep",
        refusals::TOO_MANY_BITS => b"TooManyBits",
        refusals::BAD_SELECT => b"BadSelect",
        refusals::WRONG_ASSIGN => b"WrongAssign",
        refusals::OUT_OF_SCOPE => b"OutOfScope",
        refusals::SHAPE => b"Shape",
        refusals::PHASES => b"Phases",
        refusals::CELL_BAD => b"CellBad",
        refusals::SIGNAL_UNKNOWN => b"SignalUnknown",
        refusals::SIGNAL_TWICE => b"SignalTwice",
        refusals::VAR_WIDTH => b"VarWidth",
        refusals::SAMPLE_TWICE => b"SampleTwice",
        refusals::GOAL_SYNTAX => b"GoalSyntax",
        refusals::GOAL_TWICE => b"GoalTwice",
        refusals::VAR_MISSING => b"VarMissing",
        refusals::VAR_UNKNOWN => b"VarUnknown",
        refusals::VAR_TWICE => b"VarTwice",
        refusals::VALUE_BAD => b"ValueBad",
        refusals::LOOP_TOO_WIDE => b"LoopTooWide",
        40 => b"Unbuilt",
        refusals::GOAL_UNKNOWN => b"GoalUnknown",
        refusals::CERT_SYNTAX => b"CertSyntax",
        refusals::CERT_ID => b"CertId",
        refusals::RAT_HINT => b"RatHint",
        refusals::INVARIANT_HYP => b"InvariantHyp",
        refusals::SAMPLE_UNLIKE => b"SampleUnlike",
        refusals::VCD_SYNTAX => b"VcdSyntax",
        refusals::VCD_SIGNAL => b"VcdSignal",
        _ => b"",
    }
}
