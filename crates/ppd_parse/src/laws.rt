ghost use Rattle.ppd_parse.specs.Laws.{AreTreeOrRefused, HaveAnAnswer, HaveOneRefusal, HaveOneTree, HaveTokensAsLeaves};

/// Law: tokens that end as a source's do have a tree or a refusal. They have one tree at most and, want of
/// memory aside, one refusal at most; and tokens that have a tree are refused for want of memory alone.
pub fn one_answer()
    ensures some { HaveAnAnswer }
    ensures tree { HaveOneTree }
    ensures refusal { HaveOneRefusal }
    ensures refused { AreTreeOrRefused }
{}

/// Law: the leaves of a tree, from the first to the last, are the tokens.
pub fn leaves_are_tokens()
    ensures { HaveTokensAsLeaves }
{}
