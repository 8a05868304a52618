// The rules of a language, one after another.
ghost use Rattle.std.specs.Prelude.{◌≡◌};
ghost use Rattle.std.specs.Iterator.{YieldsFirst, item_count};

use crate::rule::Rule;
use crate::until_language::UntilLanguage;
use std::marker::Model;

// Seen as the list of the rules that are still to come. Place and count are two numbers: a `Range` would stand in the view
// by its two ends all the same.
#[derive(Drop)]
pub struct Rules<'a, L: UntilLanguage> {
    language: &'a L,
    place: usize,
    count: usize,
}

impl<'a, L: UntilLanguage> Model for Rules<'a, L> {
    ghost use Rattle.std.specs.Prelude.{◌≡◌, List, drop, length};
    ghost use Rattle.language.specs.declared.rule.Rule.{Rule};

    ghost Value = { List Rule };

    ghost view = { λ s. drop s.place (L.rules s.language.now) };

    ghost invariant = { λ s. s.count ≡ length (L.rules s.language.now) };
}

impl<'a, L: UntilLanguage> Rules<'a, L> {
    // All rules of the language. By `of`, as a fitting language: in a `From` the clause would be a relation of its own.
    pub fn of(language: &'a L) -> Rules<'a, L>
        ensures { result ≡ L.rules language.now }
    {
        Rules {
            language,
            place: 0,
            count: language.rule_count(),
        }
    }
}

impl<'a, L: UntilLanguage> Iterator for Rules<'a, L> {
    type Item = Rule;

    ghost next_gives = { YieldsFirst (λ rest. rest) };

    ghost remaining = { item_count (λ rest. rest) };

    fn next(&mut self) -> Option<Rule> {
        if self.place >= self.count {
            return None;
        }
        let rule = self.language.rule(self.place);
        self.place += 1;
        rule
    }
}
