// Directives that the assembler does not have (Jasmin User Guide, "Directives").

ghost use Rattle.std.specs.Prelude.{Some};
ghost use Rattle.jm_jasmin_ops.specs.FaultTexts.{directive_text};

use std::fmt;

/// A directive of the Jasmin language, as the guide or its extension has it, that the profile
/// leaves out.
#[derive(Clone, Copy, PartialEq, Eq)]
pub enum LeftOutDirective {
    Annotation,
    Attribute,
    Debug,
    Deprecated,
    Enclosing,
    Inner,
    Set,
    Signature,
    Stack,
}

#[tactic(auto, unfolding(crate::specs::FaultTexts::directive_text))]
impl fmt::Display for LeftOutDirective {
    ghost output = { λ directive. Some (directive_text directive) };

    fn fmt<W: fmt::Write>(&self, f: &mut fmt::Formatter<W>) -> fmt::Result {
        f.write_str(match self {
            LeftOutDirective::Annotation => ".annotation",
            LeftOutDirective::Attribute => ".attribute",
            LeftOutDirective::Debug => ".debug",
            LeftOutDirective::Deprecated => ".deprecated",
            LeftOutDirective::Enclosing => ".enclosing",
            LeftOutDirective::Inner => ".inner",
            LeftOutDirective::Set => ".set",
            LeftOutDirective::Signature => ".signature",
            LeftOutDirective::Stack => ".stack",
        })
    }
}
