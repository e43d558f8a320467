// The kinds of rules.
ghost use Rattle.std.specs.Prelude.{◌≡◌};
ghost use Rattle.workflow.specs.Numbered.{kind_in};
ghost use Rattle.workflow.specs.Kinds.{kind_of};

// What a rule says of the classes of its level that the people of its steps have.
#[derive(Clone, Copy, Debug, PartialEq, Eq)]
pub enum RuleKind {
    Same,
    Different,
    AtMost,
    AtLeast,
    MaxLoad,
}

// By its number on a card, 1 to 5. The arms take in all numbers.
impl From<u8> for RuleKind {
    ghost from_gives = { λ number kind. kind_of kind ≡ kind_in number };

    fn from(number: u8) -> RuleKind {
        match number {
            0..=1 => RuleKind::Same,
            2 => RuleKind::Different,
            3 => RuleKind::AtMost,
            4 => RuleKind::AtLeast,
            _ => RuleKind::MaxLoad,
        }
    }
}
