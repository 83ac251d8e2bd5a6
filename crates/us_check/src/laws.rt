//! Laws of verdicts, each as the contract of a function that does nothing.

ghost use Rattle.us_check.specs.Laws.{LawfulTextsHold, OneAnswer};
ghost use Rattle.us_check.specs.Named.{VerdictsNameTheFirst};
ghost use Rattle.us_check.specs.Bursts.{LongCreditsFail, LongGrantsPassMaps};

/// The rule that a verdict names, any but P1, fails at its place, and holds before it: each part of it at each place before,
/// if the parts in front of that one hold everywhere. Each rule of a lower number holds.
pub fn verdicts_name_the_first()
    ensures { VerdictsNameTheFirst }
{}

/// Two texts have one answer, where memory isn't wanting.
pub fn one_answer()
    ensures { OneAnswer }
{}

/// Texts that are lawful hold, whoever made them, unless memory is wanting.
pub fn lawful_texts_hold()
    ensures { LawfulTextsHold }
{}

/// A grant of more bytes than any burst carries has more minislots than any MAP of its channel.
pub fn long_grants_pass_maps()
    ensures { LongGrantsPassMaps }
{}

/// So a line that credits so many breaks the rule of credits, where the rules of MAPs hold.
pub fn long_credits_fail()
    ensures { LongCreditsFail }
{}
