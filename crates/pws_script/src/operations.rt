//! The words that instructions begin with.

ghost use Rattle.std.specs.Prelude.{◌≡◌};
ghost use Rattle.std.specs.List.{find};
ghost use Rattle.std.specs.Str.{bytes_eq};
ghost use Rattle.pws_script.specs.Operations.{name_of, operation_named};

/// What an instruction does, without its operands.
#[derive(Clone, Copy, Debug, PartialEq, Eq)]
pub enum Operation {
    Set,
    Add,
    Sub,
    Less,
    Same,
    Jump,
    Join,
    Field,
    Receive,
    Call,
    Await,
    AwaitAny,
    Next,
    Reply,
    Clock,
    Seed,
    Draw,
    Stop,
}

/// All operations.
const OPERATIONS: [Operation; 18] = [
    Operation::Set,
    Operation::Add,
    Operation::Sub,
    Operation::Less,
    Operation::Same,
    Operation::Jump,
    Operation::Join,
    Operation::Field,
    Operation::Receive,
    Operation::Call,
    Operation::Await,
    Operation::AwaitAny,
    Operation::Next,
    Operation::Reply,
    Operation::Clock,
    Operation::Seed,
    Operation::Draw,
    Operation::Stop,
];

impl Operation {
    /// The word that such an instruction begins with.
    pub fn name(self) -> &'static [u8]
        ensures { result.now ≡ name_of self }
    {
        match self {
            Operation::Set => b"set",
            Operation::Add => b"add",
            Operation::Sub => b"sub",
            Operation::Less => b"less",
            Operation::Same => b"same",
            Operation::Jump => b"jump",
            Operation::Join => b"join",
            Operation::Field => b"field",
            Operation::Receive => b"receive",
            Operation::Call => b"call",
            Operation::Await => b"await",
            Operation::AwaitAny => b"awaitany",
            Operation::Next => b"next",
            Operation::Reply => b"reply",
            Operation::Clock => b"clock",
            Operation::Seed => b"seed",
            Operation::Draw => b"draw",
            Operation::Stop => b"stop",
        }
    }

    fn has_name(self, word: &[u8]) -> bool
        ensures { result ≡ bytes_eq (name_of self) word.now }
    {
        self.name() == word
    }

    /// The operation of this name, or None exactly where there is none.
    #[tactic(auto, unfolding(crate::specs::Operations::operation_named))]
    pub fn named(word: &[u8]) -> Option<Operation>
        ensures { result ≡ operation_named word.now }
    {
        first_named(&OPERATIONS, word)
    }
}

fn first_named(operations: &[Operation], word: &[u8]) -> Option<Operation>
    ensures { result ≡ find (λ o. bytes_eq (name_of o) word.now) operations.now }
{
    operations
        .iter()
        .copied()
        .find(|operation| operation.has_name(word))
}
