//! Calls on a chain, of a kind of its own for each list that has several bodies.

ghost use Rattle.std.specs.Prelude.{◌≡◌, ◌≤◌, ◌<◌, ◌+◌, ℕ, Option, OnOk, OnErr};
ghost use Rattle.gw_plain_chains.specs.Calling.{BodyState, state_after, AddsOnOk};
ghost use Rattle.gw_members.specs.declared.tx.Tx.{Tx as DeclaredTx};

use gw_members::{Memory, Tx};

/// A call on a chain of members of a type.
pub trait ChainCall<M>: Copy + Drop {
    /// A chain after a call.
    ghost after: { Self → BodyState M → BodyState M };

    /// What a call answers.
    ghost answer: { Self → BodyState M → Option DeclaredTx };
}

/// A chain of members of a type, whatever its body is.
pub trait ChainBody<M> {
    /// Its members in order, and to which place a walk has come.
    ghost state: { Self → BodyState M };

    /// How many more fit with no allocation.
    ghost room: { Self → ℕ };

    /// Makes room for so many more members, or leaves the chain as it was.
    fn reserve(&mut self, more: usize) -> Result<(), Memory>
        ensures state { state self.new ≡ state self.old }
        ensures room { OnOk result (more ≤ room self.new) }
        ensures kept { room self.old ≤ room self.new }
        ensures refused { OnErr result (room self.old < more) };
}

/// A chain on which calls of a kind can be made.
pub trait CallTarget<M, K: ChainCall<M>>: ChainBody<M> {
    /// Makes a call. There is room for one more.
    fn make_call(&mut self, call: K) -> Option<Tx>
        requires { 0 < Self.room self.old }
        ensures state { Self.state self.new ≡ K.after call (Self.state self.old) }
        ensures answer { result ≡ K.answer call (Self.state self.old) }
        ensures room { Self.room self.old ≤ Self.room self.new + 1 };
}

/// Makes calls on a chain, in their order, and adds to `answers` what each of them answers: the same whatever the body of
/// the chain is.
///
/// It fails for want of memory, and then made no call.
pub fn make_calls<M, K: ChainCall<M>, C: CallTarget<M, K>>(
    chain: &mut C,
    calls: &[K],
    answers: &mut Vec<Option<Tx>>,
) -> Result<(), Memory>
    ensures state { OnOk result
        (C.state chain.new ≡ state_after K.after calls.now (C.state chain.old)) }
    ensures answers { AddsOnOk K.after result K.answer calls.now (C.state chain.old) answers.old answers.new }
    ensures refused { OnErr result
        ((C.state chain.new ≡ C.state chain.old) × (answers.new.items ≡ answers.old.items)) }
{
    chain.reserve(calls.len())?;
    answers.reserve(calls.len())?;
    for i in 0..calls.len() {
        let answer = chain.make_call(calls[i]);
        answers.push_reserved(answer);
    }
    Ok(())
}
