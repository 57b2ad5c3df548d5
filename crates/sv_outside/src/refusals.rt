// The numbers of refusals, which are those of E1 to E48 in what is printed. A number, and no enum, is what contracts and messages speak of: the
// words of the numbers stand once, beside the messages (svtv_report). 40 is not in use.

/// A byte that may not stand there.
pub const BAD_BYTE: u8 = 1;

/// No token begins, or a comment, a quoted text or a directive is not whole.
pub const BAD_TOKEN: u8 = 2;

/// Includes nested over 16.
pub const INCLUDE_DEEP: u8 = 3;

/// A file, its tokens or what the preprocessor counts exceed their limit.
pub const TOO_LONG: u8 = 4;

/// A directive of a condition without its opening or its end.
pub const UNBALANCED: u8 = 5;

/// A backtick name that is neither a directive nor defined.
pub const MACRO_UNKNOWN: u8 = 6;

/// Macro uses nested over 64.
pub const MACRO_DEEP: u8 = 7;

/// No tree spells the tokens.
pub const SYNTAX: u8 = 8;

/// Nesting over 200.
pub const TOO_DEEP: u8 = 9;

/// The number of modules that are instantiated by none, which is the count, is not 1.
pub const TOP_UNCLEAR: u8 = 10;

/// An instance or the top names no module.
pub const UNKNOWN_MODULE: u8 = 11;

/// A name without a declaration that is seen and fits.
pub const UNKNOWN_NAME: u8 = 12;

/// A second declaration of a name in one scope.
pub const TWICE: u8 = 13;

/// A width outside 1 to 128, or a bound outside of 32 bits.
pub const WIDTH: u8 = 14;

/// In a constant a name that is none, an unknown bit or a negative exponent.
pub const CONST_UNKNOWN: u8 = 15;

/// A literal without a size that exceeds 32 bits.
pub const LITERAL_RANGE: u8 = 16;

/// A connection or an override of no port or parameter.
pub const PORT_UNKNOWN: u8 = 17;

/// A port or a parameter that is given twice.
pub const PORT_TWICE: u8 = 18;

/// A target that is no net or variable, or a port that can not be joined.
pub const BAD_TARGET: u8 = 19;

/// Over 4,096 turns of a loop, or over 1,000,000 of all loops.
pub const LOOP_LONG: u8 = 20;

/// Instances nested over 32.
pub const INSTANCE_DEEP: u8 = 21;

/// Over 1,048,576 bits of all wires and instances.
pub const TOO_MANY_BITS: u8 = 22;

/// A select that its operand does not have.
pub const BAD_SELECT: u8 = 23;

/// An assignment with the mark of the other kind of block.
pub const WRONG_ASSIGN: u8 = 24;

/// A form of the language that is not supported.
pub const OUT_OF_SCOPE: u8 = 25;

/// A record of a table or of values without its form.
pub const SHAPE: u8 = 26;

/// Over 64 phases.
pub const PHASES: u8 = 27;

/// A cell of no form, or a literal that does not fit.
pub const CELL_BAD: u8 = 28;

/// No signal has the path, or it is no input.
pub const SIGNAL_UNKNOWN: u8 = 29;

/// A second record of a signal.
pub const SIGNAL_TWICE: u8 = 30;

/// A variable on signals of different widths.
pub const VAR_WIDTH: u8 = 31;

/// A second sample of a name, or a sample with the name of a variable.
pub const SAMPLE_TWICE: u8 = 32;

/// The text is no list of goals.
pub const GOAL_SYNTAX: u8 = 33;

/// A second goal of a name.
pub const GOAL_TWICE: u8 = 34;

/// A variable without a value.
pub const VAR_MISSING: u8 = 35;

/// A value for no variable.
pub const VAR_UNKNOWN: u8 = 36;

/// A second value of a variable.
pub const VAR_TWICE: u8 = 37;

/// No literal of 0 and 1, or one that does not fit.
pub const VALUE_BAD: u8 = 38;

/// Over 1,024 bits, which are the count, feed each other in one phase.
pub const LOOP_TOO_WIDE: u8 = 39;

/// No goal has the name that a certificate is asked for.
pub const GOAL_UNKNOWN: u8 = 41;

/// The text is no certificate.
pub const CERT_SYNTAX: u8 = 42;

/// A literal, an ID or a hint of a certificate that is none of its own.
pub const CERT_ID: u8 = 43;

/// A hint below 0.
pub const RAT_HINT: u8 = 44;

/// An invariant with a hypothesis.
pub const INVARIANT_HYP: u8 = 45;

/// Two tables that sample unlike, or one that samples before its last phase.
pub const SAMPLE_UNLIKE: u8 = 46;

/// The text is no value change dump.
pub const VCD_SYNTAX: u8 = 47;

/// No signal of a dump has the path and a width from 1 to 128.
pub const VCD_SIGNAL: u8 = 48;
