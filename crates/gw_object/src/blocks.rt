//! A block and its operands, as plain records and enums. Their limits are the object format's (docs/object-format.md);
//! what the blocks mean is in the GPSS World Reference Manual, chapter 7.

ghost use Rattle.std.specs.Prelude.{◌≡◌};
ghost use Rattle.gw_object.specs.BlockGrammar.{block_word as word_of_block};

use gw_fields::Keyed;

/// A system numerical attribute of the clock, the termination count or the active transaction.
#[derive(Clone, Copy, PartialEq, Eq)]
pub enum Attribute {
    /// C1: the clock, in clock units.
    Clock,
    /// AC1: the clock since the job's start, which here is the clock.
    AbsoluteClock,
    /// PR: the transaction's priority.
    Priority,
    /// M1: the transit time, which is the clock less the transaction's mark time.
    TransitTime,
    /// XN1: the transaction's number.
    TransactionNumber,
    /// TG1: what is left of the termination count.
    TerminationCount,
}

/// A system numerical attribute of an entity or a block.
#[derive(Clone, Copy, PartialEq, Eq)]
pub enum EntityAttribute {
    /// F: 1 where the facility is owned, else 0.
    FacilityOwned,
    /// S: the content of a storage, in units.
    StorageContent,
    /// R: what is left of a storage's capacity, in units.
    StorageRemaining,
    /// Q: the content of a queue, in units.
    QueueContent,
    /// X: the value of a savevalue.
    SavevalueValue,
    /// LS: 1 where the logic switch is set, else 0.
    SwitchSetting,
    /// CH: how many transactions are on a user chain.
    ChainMembers,
    /// V: the value of a variable, which is that of its procedure.
    VariableValue,
    /// BV: 1 where the value of a boolean variable, which is that of its procedure, isn't 0, else 0.
    BooleanValue,
    /// FN: the value of a function at its argument.
    FunctionValue,
    /// N: the entries of a block so far.
    BlockEntries,
    /// W: how many transactions have the block as their current one.
    BlockCount,
}

/// A system numerical attribute of one entity, by its number from 0, or of one block, by its number from 1.
#[derive(Clone, Copy, PartialEq, Eq)]
pub struct Numbered {
    /// Which attribute.
    pub attribute: EntityAttribute,
    /// The number of the entity or the block.
    pub number: u16,
}

/// An operand of a block.
#[derive(Clone, Copy, PartialEq, Eq)]
pub enum Operand {
    /// A number that stands in the object.
    Constant(i64),
    /// The value of a parameter, by its number from 1 to 64.
    Parameter(u8),
    /// An attribute of the clock, the termination count or the transaction.
    Attribute(Attribute),
    /// An attribute of an entity or a block.
    OfEntity(Numbered),
    /// RN: a number from 0 to 999, or to 999,999 as the argument of a function, drawn from a stream, which is given by its
    /// number from 1 to 16.
    Random(u8),
    /// The value of a procedure without arguments, by its number from 0.
    Procedure(u16),
}

/// A random time in clock units: the mean, and how far it may lie to either side (half the range).
#[derive(Clone, Copy, PartialEq, Eq)]
pub struct Spread {
    /// The mean, in clock units.
    pub mean: Operand,
    /// Half the range, in clock units.
    pub half: Operand,
}

/// The operands of a GENERATE block.
#[derive(Clone, Copy, PartialEq, Eq)]
pub struct Generate {
    /// The time between two arrivals.
    pub interval: Spread,
    /// When the first arrival comes, in clock units; without it after a drawn interval.
    pub first: Option<i64>,
    /// How many arrivals there are at most; without it there is no such limit.
    pub limit: Option<u32>,
    /// The priority of the arrivals.
    pub priority: i32,
}

/// Units of an entity: of a storage or a queue.
#[derive(Clone, Copy, PartialEq, Eq)]
pub struct Units {
    /// The entity's number, from 0.
    pub entity: u16,
    /// How many units.
    pub number: u32,
}

impl Keyed for Units {
    ghost key_of = { λ u. u.entity };

    fn key(&self) -> u16 {
        self.entity
    }
}

/// The operands of a TRANSFER block in fractional mode.
#[derive(Clone, Copy, PartialEq, Eq)]
pub struct Fraction {
    /// How many of a thousand transactions go to the target.
    pub thousandths: u16,
    /// The number of the block to which the others go, from 1; without it they go to the next block.
    pub otherwise: Option<u16>,
    /// The number of the block to which that part of them goes, from 1.
    pub target: u16,
}

/// The operands of a TRANSFER block in both mode.
#[derive(Clone, Copy, PartialEq, Eq)]
pub struct Both {
    /// The number of the block that is tried first, from 1; without it the next block.
    pub first: Option<u16>,
    /// The number of the block that is tried next, from 1.
    pub second: u16,
}

/// How a value is put where another one is.
#[derive(Clone, Copy, PartialEq, Eq)]
pub enum Mode {
    /// It takes its place.
    Set,
    /// It is added to it.
    Add,
    /// It is subtracted from it.
    Subtract,
}

/// The operands of an ASSIGN block.
#[derive(Clone, Copy, PartialEq, Eq)]
pub struct Assign {
    /// The parameter's number, from 1 to 64.
    pub parameter: u8,
    /// How the value is put there; a parameter that isn't set counts as 0.
    pub mode: Mode,
    /// The value.
    pub value: Operand,
}

/// How two values are compared.
#[derive(Clone, Copy, PartialEq, Eq)]
pub enum Comparison {
    /// E: they are equal.
    Equal,
    /// NE: they differ.
    NotEqual,
    /// G: the first is greater.
    Greater,
    /// GE: the first is greater, or they are equal.
    GreaterOrEqual,
    /// L: the first is less.
    Less,
    /// LE: the first is less, or they are equal.
    LessOrEqual,
}

/// The operands of a TEST block.
#[derive(Clone, Copy, PartialEq, Eq)]
pub struct Test {
    /// How the values are compared.
    pub comparison: Comparison,
    /// The first value.
    pub left: Operand,
    /// The second value.
    pub right: Operand,
    /// The number of the block, from 1, to which those go for whom it is false; without it they wait until it is true.
    pub otherwise: Option<u16>,
}

/// What a GATE block asks of its entity.
#[derive(Clone, Copy, PartialEq, Eq)]
pub enum Condition {
    /// LS: the logic switch is set.
    SwitchSet,
    /// LR: the logic switch is reset.
    SwitchReset,
    /// U: the facility is in use.
    FacilityInUse,
    /// NU: the facility isn't in use.
    FacilityNotInUse,
    /// SF: the storage is full.
    StorageFull,
    /// SE: the storage is empty.
    StorageEmpty,
    /// SNF: the storage isn't full.
    StorageNotFull,
    /// SNE: the storage isn't empty.
    StorageNotEmpty,
}

/// The operands of a GATE block.
#[derive(Clone, Copy, PartialEq, Eq)]
pub struct Gate {
    /// What it asks.
    pub condition: Condition,
    /// The entity's number, from 0.
    pub entity: u16,
    /// The number of the block, from 1, to which those go for whom it isn't so; without it they wait until it is.
    pub otherwise: Option<u16>,
}

/// The operands of a TRANSFER block in subroutine mode.
#[derive(Clone, Copy, PartialEq, Eq)]
pub struct Call {
    /// The number of the block at which the subroutine begins, from 1.
    pub target: u16,
    /// The number of the parameter that keeps the number of the calling block, from 1 to 64.
    pub parameter: u8,
}

/// The operands of a LOOP block.
#[derive(Clone, Copy, PartialEq, Eq)]
pub struct Loop {
    /// The number of the parameter that counts down, from 1 to 64.
    pub parameter: u8,
    /// The number of the block to which transactions go while it is above 0, from 1.
    pub target: u16,
}

/// The operands of a SPLIT block.
#[derive(Clone, Copy, PartialEq, Eq)]
pub struct Split {
    /// How many copies of the transaction are made.
    pub copies: u16,
    /// The number of the block to which the copies go, from 1; without it they go to the next block.
    pub target: Option<u16>,
}

/// What a LOGIC block does with a logic switch.
#[derive(Clone, Copy, PartialEq, Eq)]
pub enum SwitchAction {
    /// It is set.
    Set,
    /// It is reset.
    Reset,
    /// It is set where it was reset, and reset where it was set.
    Invert,
}

/// The operands of a LOGIC block.
#[derive(Clone, Copy, PartialEq, Eq)]
pub struct Logic {
    /// What happens to the switch.
    pub action: SwitchAction,
    /// The switch's entity's number, from 0.
    pub switch: u16,
}

/// The operands of a SAVEVALUE block.
#[derive(Clone, Copy, PartialEq, Eq)]
pub struct Save {
    /// The savevalue's entity's number, from 0.
    pub savevalue: u16,
    /// How the value is put there.
    pub mode: Mode,
    /// The value.
    pub value: Operand,
}

/// At which end of a user chain a LINK puts transactions; UNLINK takes them from the front.
#[derive(Clone, Copy, PartialEq, Eq)]
pub enum LinkOrder {
    /// At the back: first in, first out.
    Fifo,
    /// At the front: last in, first out.
    Lifo,
}

/// The operands of a LINK block.
#[derive(Clone, Copy, PartialEq, Eq)]
pub struct Link {
    /// The number of the user chain's entity, from 0.
    pub chain: u16,
    /// At which end it is joined.
    pub order: LinkOrder,
}

/// The operands of an UNLINK block.
#[derive(Clone, Copy, PartialEq, Eq)]
pub struct Unlink {
    /// The number of the user chain's entity, from 0.
    pub chain: u16,
    /// The number of the block to which its members go, from 1.
    pub target: u16,
    /// How many members are taken at most; without it all are.
    pub most: Option<u32>,
}

/// The operands of a PRIORITY block.
#[derive(Clone, Copy, PartialEq, Eq)]
pub struct Priority {
    /// The new priority.
    pub value: Operand,
    /// BU: the transaction joins the current events chain behind those of that priority; without it ahead of them.
    pub behind: bool,
}

/// The operands of a PLUS block.
#[derive(Clone, Copy, PartialEq, Eq)]
pub struct Plus {
    /// What is evaluated.
    pub value: Operand,
    /// The parameter that takes the value, by its number from 1 to 64; without one the value is dropped.
    pub parameter: Option<u8>,
}

/// A block.
#[derive(Clone, Copy, PartialEq, Eq)]
pub enum Block {
    /// Transactions enter the model here.
    Generate(Generate),
    /// Transactions leave the model here, and the termination count falls by the operand.
    Terminate(Operand),
    /// Transactions rest for a time.
    Advance(Spread),
    /// Transactions become the owner of a facility, which is given by its entity's number from 0.
    Seize(u16),
    /// Transactions give up a facility, which is given by its entity's number from 0.
    Release(u16),
    /// Transactions take units of a storage.
    Enter(Units),
    /// Transactions give units of a storage back.
    Leave(Units),
    /// Transactions add units to the content of a queue.
    Queue(Units),
    /// Transactions take units off the content of a queue.
    Depart(Units),
    /// Transactions put a value into a parameter of theirs.
    Assign(Assign),
    /// Transactions go on where a comparison of two values is true.
    Test(Test),
    /// Transactions go on where an entity is as it is asked to be.
    Gate(Gate),
    /// Transactions go to a block, which is given by its number from 1: TRANSFER in unconditional mode.
    Transfer(u16),
    /// A part of the transactions goes to one block, the others to another: TRANSFER in fractional mode.
    TransferByFraction(Fraction),
    /// Transactions go to one block, or where that refuses them to another: TRANSFER in both mode.
    TransferBoth(Both),
    /// Transactions go to a subroutine, and a parameter of theirs keeps the number of this block: TRANSFER in subroutine
    /// mode.
    TransferToSubroutine(Call),
    /// Transactions go to the block after the one whose number a parameter of theirs holds, which is given by its number
    /// from 1 to 64: TRANSFER in parameter mode.
    TransferByParameter(u8),
    /// Transactions count a parameter of theirs down, and go to a block as long as it is above 0.
    Loop(Loop),
    /// Transactions make copies of themselves.
    Split(Split),
    /// Transactions of one assembly set, as many as this number, become one.
    Assemble(u16),
    /// Transactions join a user chain.
    Link(Link),
    /// Transactions take others from a user chain, which go on.
    Unlink(Unlink),
    /// Transactions set, reset or invert a logic switch.
    Logic(Logic),
    /// Transactions put a value into a savevalue.
    Savevalue(Save),
    /// Transactions put the clock into a parameter, which is given by its number from 1 to 64; without one it becomes
    /// their mark time.
    Mark(Option<u8>),
    /// Transactions get a priority, and let others go first.
    Priority(Priority),
    /// Transactions let the others of their priority go first.
    Buffer,
    /// Transactions evaluate a value, and may put it into a parameter of theirs.
    Plus(Plus),
    /// Transactions enter the argument of a table into it; the table is given by its entity's number from 0.
    Tabulate(u16),
}

/// The word of a block in a model text.
pub fn block_word(block: &Block) -> &'static str
    ensures { result.now ≡ word_of_block block.now }
{
    match block {
        Block::Generate(_) => "GENERATE",
        Block::Terminate(_) => "TERMINATE",
        Block::Advance(_) => "ADVANCE",
        Block::Seize(_) => "SEIZE",
        Block::Release(_) => "RELEASE",
        Block::Enter(_) => "ENTER",
        Block::Leave(_) => "LEAVE",
        Block::Queue(_) => "QUEUE",
        Block::Depart(_) => "DEPART",
        Block::Assign(_) => "ASSIGN",
        Block::Test(_) => "TEST",
        Block::Gate(_) => "GATE",
        Block::Transfer(_)
        | Block::TransferByFraction(_)
        | Block::TransferBoth(_)
        | Block::TransferToSubroutine(_)
        | Block::TransferByParameter(_) => "TRANSFER",
        Block::Loop(_) => "LOOP",
        Block::Split(_) => "SPLIT",
        Block::Assemble(_) => "ASSEMBLE",
        Block::Link(_) => "LINK",
        Block::Unlink(_) => "UNLINK",
        Block::Priority(_) => "PRIORITY",
        Block::Logic(_) => "LOGIC",
        Block::Savevalue(_) => "SAVEVALUE",
        Block::Mark(_) => "MARK",
        Block::Plus(_) => "PLUS",
        Block::Tabulate(_) => "TABULATE",
        Block::Buffer => "BUFFER",
    }
}
