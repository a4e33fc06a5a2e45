//! Kinds: what blocks lead to, and which take time.

use gw_object::{Block, Fraction, Generate, Operand, Spread};
use gw_rules::{Way, exits, leads_to, takes_time};
use gw_samples::first_wrong;

/// A time of this mean and half range, both numbers.
fn time(mean: i64, half: i64) -> Spread {
    Spread {
        mean: Operand::Constant(mean),
        half: Operand::Constant(half),
    }
}

/// GENERATE 10.
fn arrival() -> Block {
    Block::Generate(Generate {
        interval: time(10, 0),
        first: None,
        limit: None,
        priority: 0,
    })
}

/// TRANSFER .5 to block 9, and else to another block or the next.
fn half_to_9(otherwise: Option<u16>) -> Block {
    Block::TransferByFraction(Fraction {
        thousandths: 500,
        otherwise,
        target: 9,
    })
}

/// Whether the exits of a block are these, in order.
fn leave_by(block: Block, expected: &[(Way, bool)]) -> bool {
    let exits = exits(&block);
    let found = exits.as_slice();
    found.len() == expected.len()
        && (0..found.len()).all(|i| (found[i].way, found[i].passes_time) == expected[i])
}

#[test]
fn time_passes_where_at_least_1_is_drawn(rt: HostRuntime) {
    const FALLS: Way = Way::Falls;
    let are_right = [
        leave_by(Block::Advance(time(3, 2)), &[(FALLS, true)]),
        leave_by(Block::Advance(time(2, 2)), &[(FALLS, false)]),
        leave_by(Block::Advance(time(1, 0)), &[(FALLS, true)]),
        leave_by(Block::Advance(time(5, -1)), &[(FALLS, false)]),
        leave_by(arrival(), &[(FALLS, false)]),
        takes_time(time(3, 2)),
        !takes_time(time(2, 2)),
    ];
    assert!(rt; first_wrong(&are_right).is_none());
}

#[test]
fn a_transfer_leaves_by_its_targets(rt: HostRuntime) {
    let are_right = [
        leave_by(Block::Terminate(Operand::Constant(1)), &[]),
        leave_by(Block::Transfer(7), &[(Way::Goes(7), false)]),
        leave_by(
            half_to_9(None),
            &[(Way::Falls, false), (Way::Goes(9), false)],
        ),
        leave_by(
            half_to_9(Some(8)),
            &[(Way::Goes(8), false), (Way::Goes(9), false)],
        ),
        leads_to(4, Way::Falls) == 5,
        leads_to(4, Way::Goes(9)) == 9,
    ];
    assert!(rt; first_wrong(&are_right).is_none());
}
