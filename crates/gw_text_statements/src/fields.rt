//! What each operand of a statement may be.

use gw_text_tokens::faults::Refusal;
use gw_text_tokens::words::Word;

/// What an operand may be.
#[derive(Clone, Copy)]
pub(crate) enum Field {
    /// A value.
    Value,
    /// A value that is no FN.
    Spread,
    /// An entity.
    Entity,
    /// An entity whose value is changed, with a sign behind it where the change is a sum.
    ChangedEntity,
    /// A parameter.
    Parameter,
    /// A parameter that is changed, with a sign behind it where the change is a sum.
    ChangedParameter,
    /// A parameter, or nothing.
    OptionalParameter,
    /// The label of a block.
    Target,
    /// The label of a block, or nothing.
    OptionalTarget,
    /// A whole number.
    Number(Number),
    /// FIFO or LIFO, or nothing.
    Order,
    /// BU, or nothing.
    Behind,
    /// A whole number or ALL, or nothing.
    Count,
}

/// What a whole number stands for.
#[derive(Clone, Copy)]
pub(crate) enum Number {
    /// Any whole number.
    Any,
    /// The time of the first arrival, in clock units.
    FirstTime,
    /// At most how many arrive.
    Arrivals,
    /// How many there are of something, in 32 bits.
    Count,
    /// A priority.
    Priority,
    /// Units of a storage or a queue.
    Units,
    /// Copies of a transaction.
    Copies,
    /// Members of an assembly set.
    Partners,
    /// The capacity of a storage.
    Capacity,
    /// The width of a table's classes.
    Width,
    /// The classes of a table.
    Classes,
    /// The state of a switch.
    State,
    /// The seed of a stream.
    Seed,
    /// The count of a START.
    Terminations,
}

impl Number {
    /// The least and the greatest of its numbers. It may be missing where 0 is one of them.
    pub(crate) fn range(self) -> (i64, i64) {
        match self {
            Number::Any | Number::FirstTime => (i64::MIN, i64::MAX),
            Number::Count | Number::Arrivals | Number::Units => (0, 4294967295),
            Number::Priority => (-2147483648, 2147483647),
            Number::Copies | Number::Partners => (0, 65535),
            Number::Capacity => (1, 2147483647),
            Number::Width => (1, 4294967295),
            Number::Classes => (2, 1000),
            Number::State => (0, 1),
            Number::Seed => (0, 2147483646),
            Number::Terminations => (1, 1099511627776),
        }
    }

    /// How a value that is computed is refused in its place.
    pub(crate) fn computed(self) -> Refusal {
        match self {
            Number::Units | Number::Copies => Refusal::LeftOut,
            _ => Refusal::Operand,
        }
    }

    /// Whether an attribute in its place is refused alike, be its class one that is left out or not.
    pub(crate) fn is_plain(self) -> bool {
        matches!(
            self,
            Number::FirstTime
                | Number::Arrivals
                | Number::Priority
                | Number::Capacity
                | Number::Terminations
        )
    }
}

const GENERATE: [Field; 5] = [
    Field::Value,
    Field::Spread,
    Field::Number(Number::FirstTime),
    Field::Number(Number::Arrivals),
    Field::Number(Number::Priority),
];

const VALUE: [Field; 1] = [Field::Value];

const ADVANCE: [Field; 2] = [Field::Value, Field::Spread];

const ENTITY: [Field; 1] = [Field::Entity];

const ENTITY_UNITS: [Field; 2] = [Field::Entity, Field::Number(Number::Units)];

const ASSIGN: [Field; 2] = [Field::ChangedParameter, Field::Value];

const TEST: [Field; 3] = [Field::Value, Field::Value, Field::OptionalTarget];

const GATE: [Field; 2] = [Field::Entity, Field::OptionalTarget];

const LOOP: [Field; 2] = [Field::Parameter, Field::Target];

const SPLIT: [Field; 2] = [Field::Number(Number::Copies), Field::OptionalTarget];

const ASSEMBLE: [Field; 1] = [Field::Number(Number::Partners)];

const LINK: [Field; 2] = [Field::Entity, Field::Order];

const UNLINK: [Field; 3] = [Field::Entity, Field::Target, Field::Count];

const SAVEVALUE: [Field; 2] = [Field::ChangedEntity, Field::Value];

const MARK: [Field; 1] = [Field::OptionalParameter];

const PRIORITY: [Field; 2] = [Field::Value, Field::Behind];

const PLUS: [Field; 2] = [Field::Value, Field::OptionalParameter];

const STORAGE: [Field; 1] = [Field::Number(Number::Capacity)];

const TABLE: [Field; 4] = [
    Field::Value,
    Field::Number(Number::Any),
    Field::Number(Number::Width),
    Field::Number(Number::Classes),
];

const RMULT: [Field; 7] = [Field::Number(Number::Seed); 7];

const START: [Field; 1] = [Field::Number(Number::Terminations)];

/// The operands of a word, in order (GPSS World Reference Manual, chapters 6 and 7).
pub(crate) fn fields_of(word: Word) -> &'static [Field] {
    match word {
        Word::Generate => &GENERATE,
        Word::Terminate => &VALUE,
        Word::Advance => &ADVANCE,
        Word::Seize | Word::Release | Word::Logic | Word::Tabulate => &ENTITY,
        Word::Enter | Word::Leave | Word::Queue | Word::Depart => &ENTITY_UNITS,
        Word::Assign => &ASSIGN,
        Word::Test => &TEST,
        Word::Gate => &GATE,
        Word::Loop => &LOOP,
        Word::Split => &SPLIT,
        Word::Assemble => &ASSEMBLE,
        Word::Link => &LINK,
        Word::Unlink => &UNLINK,
        Word::Savevalue => &SAVEVALUE,
        Word::Mark => &MARK,
        Word::Priority => &PRIORITY,
        Word::Plus => &PLUS,
        Word::Storage => &STORAGE,
        Word::Table => &TABLE,
        Word::Rmult => &RMULT,
        Word::Start => &START,
        _ => &[],
    }
}
