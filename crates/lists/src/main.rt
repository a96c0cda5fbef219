// Calls both functions over lists of no, one and three records. Each call prints a line with its name, the list's length and its arguments, and
// last the answer's number; then a line for each record, with its fields in order.
#![tactic(auto)]

use std::fmt;
use std::fmt::{Display, Formatter};
use vcpu_list::Vcpu;

// A call on a list, with its arguments: the record's index, and for a CR switch its bit and whether it is set.
#[derive(Clone, Copy)]
enum Call {
    Ready(usize),
    Cr(usize, u32, bool),
}

// A record as it is printed.
#[derive(Clone, Copy)]
struct Row(Vcpu);

impl Display for Row {
    fn fmt<W: fmt::Write>(&self, f: &mut Formatter<W>) -> fmt::Result {
        let Vcpu {
            ready,
            singlestep,
            crs,
            events,
            pauses,
            awaited,
            awaited_seq,
        } = self.0;
        write!(
            f,
            " {ready} {singlestep} {crs} {events} {pauses} {awaited} {awaited_seq}"
        )
    }
}

fn try_call(rt: &HostRuntime, vcpus: &mut [Vcpu], call: Call) {
    let n = vcpus.len();
    let answer = match call {
        Call::Ready(i) => {
            let _ = print!(rt; "ready {n} {i}");
            vcpu_list::mark_ready(vcpus, i)
        }
        Call::Cr(i, cr, on) => {
            let _ = print!(rt; "cr {n} {i} {cr} {}", u8::from(on));
            vcpu_list::set_cr(vcpus, i, cr, on)
        }
    };
    let _ = println!(rt; " {}", stream::answer_number(answer));
    for v in vcpus {
        let _ = println!(rt; "{}", Row(*v));
    }
}

// Calls one after the other, on the records that the last one left.
fn try_all(rt: &HostRuntime, vcpus: &mut [Vcpu], calls: &[Call]) {
    for call in calls {
        try_call(rt, vcpus, *call);
    }
}

// A record whose other fields are all set.
fn record(ready: u64, crs: u64, pauses: u64) -> Vcpu {
    Vcpu {
        ready,
        singlestep: 1,
        crs,
        events: 2072,
        pauses,
        awaited: 2,
        awaited_seq: u64::from(u32::MAX),
    }
}

// No record: every index is past the end.
fn run_none(rt: &HostRuntime) {
    let calls = [
        Call::Ready(0),
        Call::Ready(usize::MAX),
        Call::Cr(0, 0, true),
        Call::Cr(0, 5, true),
    ];
    try_all(rt, &mut [], &calls);
}

// One record, not ready at first: each switch on and off.
fn run_one(rt: &HostRuntime) {
    let calls = [
        Call::Cr(0, 0, true),
        Call::Cr(0, 1, true),
        Call::Ready(1),
        Call::Cr(1, 0, true),
        Call::Cr(1, 2, false),
        Call::Ready(0),
        Call::Ready(0),
        Call::Cr(0, 0, true),
        Call::Cr(0, 4, true),
        Call::Cr(0, 3, true),
        Call::Cr(0, 3, true),
        Call::Cr(0, 0, false),
        Call::Cr(0, 3, false),
        Call::Cr(0, 3, false),
        Call::Cr(0, 4, false),
    ];
    try_all(rt, &mut [record(0, 0, 1)], &calls);
}

// Three records, the first not ready, the second ready by another number than 1 and with more bits than there are CRs.
fn run_three(rt: &HostRuntime) {
    let first = record(0, 2, 3);
    let second = record(u64::MAX, 18446744073709551613, 8);
    let third = record(1, 0, 0);
    let calls = [
        Call::Cr(1, 0, false),
        Call::Cr(1, 4, false),
        Call::Cr(1, 3, true),
        Call::Cr(1, 1, true),
        Call::Cr(1, 2, true),
        Call::Cr(1, 5, false),
        Call::Cr(1, 8, true),
        Call::Cr(1, u32::MAX, false),
        Call::Cr(0, 3, false),
        Call::Cr(2, 4, true),
        Call::Cr(3, 4, true),
        Call::Cr(3, 8, true),
        Call::Cr(usize::MAX, 0, true),
        Call::Ready(3),
        Call::Ready(usize::MAX),
        Call::Ready(1),
        Call::Ready(0),
        Call::Cr(0, 3, false),
        Call::Cr(0, 0, true),
    ];
    try_all(rt, &mut [first, second, third], &calls);
}

// A line that can't be written is left out.
fn main(rt: HostRuntime) {
    run_none(&rt);
    run_one(&rt);
    run_three(&rt);
}
