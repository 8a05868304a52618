ghost use Rattle.std.specs.Prelude.{◌≡◌};
ghost use Rattle.language.specs.Rules.{head_of};
ghost use Rattle.language.specs.declared.rule.Rule.TheVariants.{Empty};
ghost use Rattle.std.proofs.Common.{rules};

use model::Record;

// A rule of an until language: what its head symbol gives, in one of five forms.
#[derive(Clone, Copy, PartialEq, Eq, Debug)]
pub enum Rule {
    // the empty word
    Empty { head: u8 },
    // the action
    Letter { head: u8, action: u8 },
    // the action, then what `rest` gives
    Lead { head: u8, action: u8, rest: u8 },
    // what `body` gives
    Same { head: u8, body: u8 },
    // what `left` gives, then what `right` gives
    Pair { head: u8, left: u8, right: u8 },
}

impl Rule {
    // The symbol that the rule is about.
    pub fn head(self) -> u8
        ensures { result ≡ head_of self }
    {
        match self {
            Rule::Empty { head }
            | Rule::Letter { head, .. }
            | Rule::Lead { head, .. }
            | Rule::Same { head, .. }
            | Rule::Pair { head, .. } => head,
        }
    }
}

// By hand: a derive takes a case without fields alone.
impl Default for Rule {
    ghost is_default = { λ rule. rule ≡ Empty 0 };

    fn default() -> Rule {
        Rule::Empty { head: 0 }
    }
}

impl Record for Rule {
    ghost identical = { Prim.search rules };

    ghost equal = { Prim.search rules };
}
