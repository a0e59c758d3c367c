// What is counted on the link. The counters of a run this long fit; they go round like the port's own where they would not.
use receiver_answers::Answer;
use test_questions::say;

#[derive(Clone, Copy)]
pub(crate) struct Tally {
    pub sent: u32,
    pub whole: u32,
    pub delivered: u32,
    pub express: u32,
    pub run: u32,
    pub longest: u32,
    // Of the frame in progress: its mFrames, and those of them that were lost.
    pub pieces: u32,
    pub losses: u32,
    pub most: u32,
}

// One more, where that is so.
fn plus(n: u32, so: bool) -> u32 {
    n.wrapping_add(u32::from(so))
}

fn run_after(run: u32, lost: bool) -> u32 {
    if lost { plus(run, true) } else { 0 }
}

impl Tally {
    pub const NONE: Tally = Tally {
        sent: 0,
        whole: 0,
        delivered: 0,
        express: 0,
        run: 0,
        longest: 0,
        pieces: 0,
        losses: 0,
        most: 0,
    };

    // A preemptable mFrame is written, the last of its frame or not, and lost or not.
    pub fn written(self, done: bool, lost: bool) -> Tally {
        let run = run_after(self.run, lost);
        let pieces = plus(self.pieces, true);
        let losses = plus(self.losses, lost);
        let on = Tally {
            run,
            longest: self.longest.max(run),
            pieces,
            losses,
            most: self.most.max(pieces),
            ..self
        };
        if !done {
            return on;
        }
        Tally {
            sent: plus(self.sent, true),
            whole: plus(self.whole, losses == 0),
            pieces: 0,
            losses: 0,
            ..on
        }
    }

    // The receiver answers.
    pub fn answered(self, answer: Answer) -> Tally {
        Tally {
            express: plus(self.express, matches!(answer, Answer::Express(_))),
            delivered: plus(self.delivered, matches!(answer, Answer::Delivered(_))),
            ..self
        }
    }
}

pub(crate) fn write(rt: HostRuntime, t: Tally) {
    say::number(rt, u64::from(t.sent));
    say::number(rt, u64::from(t.whole));
    say::number(rt, u64::from(t.delivered));
    say::number(rt, u64::from(t.express));
    say::number(rt, u64::from(t.longest));
    say::number(rt, u64::from(t.most));
}
