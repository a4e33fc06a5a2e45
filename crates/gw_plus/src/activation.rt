//! Activations of procedures: one small method for each instruction (docs/plus-code.md).

ghost use Rattle.std.specs.Prelude.{◌≡◌, ◌≢◌, ◌≤◌, ◌<◌, ℕ, length, Some, IsTrue, ◌==◌};
ghost use Rattle.std.specs.List.{position};
ghost use Rattle.gw_object.specs.Limits.{most_instructions, most_locals};
ghost use Rattle.gw_object.specs.CodeGrammar.{is_back};
ghost use Rattle.gw_rules.specs.KindsLaws.{InstructionHolds};
ghost use Rattle.gw_rules.specs.PlusLaws.{CodeHolds};
ghost use Rattle.gw_rules.specs.Meaning as model;
ghost use Rattle.gw_rules.specs.Meaning.{Goes, Stuck, on, push_value, calculate, frame_of_locals};
ghost use Rattle.gw_plus.specs.Reading.{IsOf};
ghost use Rattle.gw_plus.specs.Activation.{taken_of, frame_of, first_frame, top_of, next_read, next_of, finish_of, CanCount, CanCountNext, Does, CallsAlone, DoesCall, HasEntry, CountsByEntry, without_top, DoesRead, DoesInstruction};

use crate::env::Env;
use arrayvec::ArrayVec;
use gw_num::{Binary, NumFault, Unary};
use gw_object::{Back, Instruction, Operand, Parts, Sna};
use gw_rules::{PlusEnd, as_operand, operand_value, source_of};

/// How often a BACK was taken.
#[derive(Clone, Copy, Default, PartialEq, Eq)]
pub(crate) struct Turns {
    /// The number of its instruction, from 0.
    pub place: usize,
    /// How often it was taken, while this activation lasts.
    pub count: u32,
}

/// An activation of a procedure.
#[derive(Drop)]
pub(crate) struct Activation {
    /// The number of the instruction that comes next, from 0.
    pub place: usize,
    /// The stack, with its top at the end.
    pub stack: ArrayVec<i64, 64>,
    /// The locals, by their numbers.
    pub locals: ArrayVec<i64, 32>,
    /// How often each BACK was taken that was taken yet.
    pub turns: ArrayVec<Turns, 32>,
}

/// What an instruction did.
#[derive(Drop)]
pub(crate) enum Step {
    /// The activation went on.
    Went,
    /// It called the procedure of this number, from 0, which begins with these locals; it goes on with what the instruction
    /// makes of its value (`finished`).
    Called(u16, ArrayVec<i64, 32>),
    /// It returned this value.
    Returned(i64),
    /// It ended the evaluation.
    Ended(PlusEnd),
}

/// The end of an evaluation that a fault of arithmetic brings.
pub fn ended_by(fault: NumFault) -> PlusEnd
    ensures { result ≡ model.ended_by fault }
{
    match fault {
        NumFault::Number => PlusEnd::Number,
        NumFault::ZeroDivisor => PlusEnd::ZeroDivisor,
    }
}

/// The locals with which an activation begins that has so many: the arguments are the first ones, and the others are 0.
pub(crate) fn opening_locals(count: u8, arguments: &[i64]) -> ArrayVec<i64, 32>
    requires arguments { length arguments.now ≤ count }
    requires room { count ≤ most_locals }
    ensures { result.items ≡ (frame_of_locals count arguments.now).locals }
{
    let mut locals = ArrayVec::new();
    for i in 0..count as usize {
        locals.push(arguments.get(i).copied().unwrap_or(0));
    }
    locals
}

/// The number of the entry for the BACK at this place, if there is one.
fn find_entry(turns: &[Turns], place: usize) -> Option<usize>
    ensures { result ≡ position (λ taken. taken.place == place) turns.now }
{
    turns.iter().position(|taken| taken.place == place)
}

/// The number of the entry for the BACK at this place: a new one, which says 0 times, where it wasn't taken yet.
fn entry_for(turns: &mut ArrayVec<Turns, 32>, place: usize) -> usize
    requires { CanCount (taken_of turns.old.items) place }
    ensures there { result < length turns.new.items }
    ensures taken { HasEntry result place turns.old.items turns.new.items }
    ensures once { CountsByEntry result place turns.old.items turns.new.items }
{
    match find_entry(turns.as_slice(), place) {
        Some(entry) => entry,
        None => {
            turns.push(Turns { place, count: 0 });
            turns.len() - 1
        }
    }
}

/// What an instruction makes of the value of the procedure that it called: VALUE what its attribute makes of it
/// (`gw_rules::operand_value`), and CALL leaves it as it is.
pub(crate) fn finished(parts: &Parts, instruction: Instruction, value: i64) -> i64
    ensures { result ≡ finish_of parts.now instruction value }
{
    match instruction {
        Instruction::Value(sna) => operand_value(parts.entities.as_slice(), as_operand(sna), value),
        _ => value,
    }
}

impl Activation {
    /// The activation that begins with these locals.
    pub fn begin(locals: ArrayVec<i64, 32>) -> Activation
        ensures { frame_of result ≡ first_frame locals.items }
    {
        Activation {
            place: 0,
            stack: ArrayVec::new(),
            locals,
            turns: ArrayVec::new(),
        }
    }

    /// Puts a value onto the stack.
    pub fn push(&mut self, value: i64)
        requires { push_value value (frame_of self.old) ≢ Stuck }
        ensures { push_value value (frame_of self.old) ≡ Goes (frame_of self.new) }
    {
        self.stack.push(value);
    }

    /// The value on top of the stack.
    fn top(&self) -> i64
        requires { 0 < length self.now.stack.items }
        ensures { top_of self.now ≡ Some result }
    {
        self.stack[self.stack.len() - 1]
    }

    /// Takes the value on top of the stack.
    fn take_top(&mut self) -> i64
        requires { 0 < length self.old.stack.items }
        ensures value { top_of self.old ≡ Some result }
        ensures rest { frame_of self.new ≡ without_top (frame_of self.old) }
    {
        let value = self.top();
        self.stack.truncate(self.stack.len() - 1);
        value
    }

    /// PUSH: this value comes onto the stack. GET, VALUE and the operators end so too.
    fn push_and_go(&mut self, value: i64) -> Step
        requires going { push_value value (on (frame_of self.old)) ≢ Stuck }
        requires place { self.old.place < most_instructions }
        ensures { Does (λ f. push_value value (on f)) self.old self.new result }
    {
        self.place += 1;
        self.push(value);
        Step::Went
    }

    /// Goes on to the next instruction with what an operator made of its values, or ends.
    fn settle(&mut self, outcome: Result<i64, NumFault>) -> Step
        requires going { calculate outcome (on (frame_of self.old)) ≢ Stuck }
        requires place { self.old.place < most_instructions }
        ensures { Does (λ f. calculate outcome (on f)) self.old self.new result }
    {
        match outcome {
            Ok(value) => self.push_and_go(value),
            Err(fault) => Step::Ended(ended_by(fault)),
        }
    }

    /// GET: the value of this local comes onto the stack.
    fn get(&mut self, local: u8) -> Step
        requires going { model.gets local (frame_of self.old) ≢ Stuck }
        requires place { self.old.place < most_instructions }
        ensures { Does (model.gets local) self.old self.new result }
    {
        let value = self.locals[local as usize];
        self.push_and_go(value)
    }

    /// SET: the value on top of the stack goes into this local.
    fn set(&mut self, local: u8) -> Step
        requires going { model.sets local (frame_of self.old) ≢ Stuck }
        requires place { self.old.place < most_instructions }
        ensures { Does (model.sets local) self.old self.new result }
    {
        let value = self.take_top();
        self.locals[local as usize] = value;
        self.place += 1;
        Step::Went
    }

    /// VALUE whose source is a procedure: that one is called, without arguments.
    fn call_alone(&mut self, parts: &Parts, called: u16) -> Step
        requires code { CodeHolds parts.now }
        requires there { called < length parts.now.procedures }
        requires place { self.old.place < most_instructions }
        ensures { CallsAlone parts.now called self.old self.new result }
    {
        let procedure = &parts.procedures.as_slice()[called as usize];
        self.place += 1;
        Step::Called(called, opening_locals(procedure.locals, &[]))
    }

    /// VALUE: by its source, a procedure is called, or what the attribute makes of a value that is kept comes onto the stack
    /// (`gw_rules::source_of`, `gw_rules::operand_value`).
    fn value(&mut self, parts: &Parts, env: &Env, sna: Sna) -> Step
        requires code { CodeHolds parts.now }
        requires environment { IsOf parts.now env.now }
        requires holds { (locals : ℕ) × InstructionHolds parts.now locals (Instruction.Value sna) }
        requires going { next_read parts.now env.now sna self.old ≢ Stuck }
        requires place { self.old.place < most_instructions }
        ensures { DoesRead parts.now env.now sna self.old self.new result }
    {
        let entities = parts.entities.as_slice();
        let operand = as_operand(sna);
        match source_of(entities, operand) {
            Operand::Procedure(called) => self.call_alone(parts, called),
            source => self.push_and_go(operand_value(entities, operand, env.kept_value(source))),
        }
    }

    /// ADD to POW, EQ to LE, AND and OR: the two values on top of the stack give way to what the operator makes of them; the
    /// upper one is the right one.
    fn binary(&mut self, operator: Binary) -> Step
        requires going { model.does_binary operator (frame_of self.old) ≢ Stuck }
        requires place { self.old.place < most_instructions }
        ensures { Does (model.does_binary operator) self.old self.new result }
    {
        let right = self.take_top();
        let left = self.take_top();
        self.settle(operator.of(left, right))
    }

    /// NEG and NOT: the value on top of the stack gives way to what the operator makes of it.
    fn unary(&mut self, operator: Unary) -> Step
        requires going { model.does_unary operator (frame_of self.old) ≢ Stuck }
        requires place { self.old.place < most_instructions }
        ensures { Does (model.does_unary operator) self.old self.new result }
    {
        let value = self.take_top();
        self.settle(operator.of(value))
    }

    /// POP: the value on top of the stack goes.
    fn pop(&mut self) -> Step
        requires going { model.pops (frame_of self.old) ≢ Stuck }
        requires place { self.old.place < most_instructions }
        ensures { Does model.pops self.old self.new result }
    {
        self.take_top();
        self.place += 1;
        Step::Went
    }

    /// JUMP: to this instruction.
    fn jump(&mut self, target: u16) -> Step
        ensures { Does (λ f. Goes (record f { place = target })) self.old self.new result }
    {
        self.place = target as usize;
        Step::Went
    }

    /// JZ: the value on top of the stack goes; where it is 0, to this instruction, else to the next one.
    fn jump_if_zero(&mut self, target: u16) -> Step
        requires going { model.jumps_if_zero target (frame_of self.old) ≢ Stuck }
        requires place { self.old.place < most_instructions }
        ensures { Does (model.jumps_if_zero target) self.old self.new result }
    {
        let value = self.take_top();
        self.place = if value == 0 {
            target as usize
        } else {
            self.place + 1
        };
        Step::Went
    }

    /// BACK: to its target, or the end LoopLimit where it was taken as often as it may be.
    fn back(&mut self, back: Back) -> Step
        requires { CanCountNext self.old }
        ensures { Does (model.jumps_back back) self.old self.new result }
    {
        let place = self.place;
        let entry = entry_for(&mut self.turns, place);
        let count = self.turns[entry].count;
        if back.count <= count {
            return Step::Ended(PlusEnd::LoopLimit);
        }
        self.turns[entry] = Turns {
            place,
            count: count + 1,
        };
        self.place = back.target as usize;
        Step::Went
    }

    /// CALL: the procedure of this number takes its arguments from the stack.
    fn call(&mut self, parts: &Parts, called: u16) -> Step
        requires code { CodeHolds parts.now }
        requires going { model.calls parts.now called (frame_of self.old) ≢ Stuck }
        requires place { self.old.place < most_instructions }
        ensures { DoesCall parts.now called self.old self.new result }
    {
        let procedure = &parts.procedures.as_slice()[called as usize];
        let base = self.stack.len() - procedure.arguments as usize;
        let locals = opening_locals(procedure.locals, &self.stack.as_slice()[base..]);
        self.stack.truncate(base);
        self.place += 1;
        Step::Called(called, locals)
    }

    /// RET: the value on top of the stack is the procedure's.
    fn return_top(&self) -> Step
        requires { model.returns_top (frame_of self.now) ≢ Stuck }
        ensures { Does model.returns_top self.now self.now result }
    {
        Step::Returned(self.top())
    }

    /// Executes this instruction, which is the one that comes next.
    #[tactic(auto, unfolding(gw_rules::specs::Meaning::act))]
    pub fn step(&mut self, parts: &Parts, env: &Env, instruction: Instruction) -> Step
        requires code { CodeHolds parts.now }
        requires environment { IsOf parts.now env.now }
        requires holds { (locals : ℕ) × InstructionHolds parts.now locals instruction }
        requires going { next_of parts.now env.now instruction self.old ≢ Stuck }
        requires place { self.old.place < most_instructions }
        requires room { IsTrue (is_back instruction) → CanCountNext self.old }
        ensures { DoesInstruction parts.now env.now instruction self.old self.new result }
    {
        match instruction {
            Instruction::Push(value) => self.push_and_go(value),
            Instruction::Get(local) => self.get(local),
            Instruction::Set(local) => self.set(local),
            Instruction::Value(sna) => self.value(parts, env, sna),
            Instruction::Binary(operator) => self.binary(operator),
            Instruction::Unary(operator) => self.unary(operator),
            Instruction::Pop => self.pop(),
            Instruction::Jump(target) => self.jump(target),
            Instruction::JumpIfZero(target) => self.jump_if_zero(target),
            Instruction::Back(back) => self.back(back),
            Instruction::Call(called) => self.call(parts, called),
            Instruction::Return => self.return_top(),
        }
    }
}
