//! Laws of the lease words for the crates above: what all seats' events say of the words.

ghost use Rattle.nfs_words.specs.Rules.{AnswersAlone, RulesHold};

/// The law that the table's rule, which holds between any two steps, says of the words and of all seats what `Rules`
/// has.
pub fn rules_hold()
    ensures { RulesHold }
{}

/// The law that what is found of a lease that was opened goes by the client's own events alone.
pub fn answers_alone()
    ensures { AnswersAlone }
{}
