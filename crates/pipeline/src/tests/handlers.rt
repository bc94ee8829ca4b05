use crate::tests::{came_back, frame_of, shows, told};
use crate::{AnyHandler, Handler, Pipeline, Stage, Step};
use iobuf_chain::Frame;
use share_count::Mint;
use std::alloc::{AllocError, Global};
use std::process::Abort;
use std::sync::Arc;
use std::sync::atomic::{AtomicU64, Ordering};

// Counts the frames that reach it, in a word that others see, too. Every third fails with 5.
#[derive(Drop)]
struct Third {
    word: Arc<AtomicU64, Global>,
    // How many frames pass before one fails.
    left: u64,
}

impl Third {
    fn boxed(alloc: Global, word: &Arc<AtomicU64, Global>) -> Result<AnyHandler, AllocError> {
        let word = Arc::try_clone(word)?;
        Ok(Box::new(alloc, Third { word, left: 2 })?)
    }
}

impl Handler for Third {
    ghost use Rattle.std.specs.Prelude.{◌-◌, ◌==◌, [], ◌∷◌, map, sum, if◌then◌else◌};
    ghost use Rattle.pipeline.specs.Plain.{pass, fail};

    ghost machine = { λ t. record {
      holds = t.left ∷ [];
      says = λ held x. if sum held == 0 then fail 5 x else pass x;
      next = λ held x. map (λ n. if n == 0 then 2 else n - 1) held;
    } };

    fn read(&mut self, alloc: Global, frame: Frame, mint: &mut Mint) -> Result<Step, Frame> {
        self.word.fetch_add(1, Ordering::SeqCst);
        if self.left == 0 {
            self.left = 2;
            return Ok(Step::Fail(5, frame));
        }
        self.left -= 1;
        Ok(Step::Pass(frame))
    }
}

// Always wants memory that isn't there.
#[derive(Drop)]
struct Greedy {
    refused: u64,
}

impl Handler for Greedy {
    ghost use Rattle.std.specs.Prelude.{[]};
    ghost use Rattle.pipeline.specs.Plain.{skip};

    ghost machine = { λ g. record { holds = []; says = λ held x. skip x; next = λ held x. held } };

    fn read(&mut self, alloc: Global, frame: Frame, mint: &mut Mint) -> Result<Step, Frame> {
        self.refused = self.refused.saturating_add(1);
        Err(frame)
    }
}

// Another thread may take such a value.
fn sends<T: Send>(_value: &T) {}

// What a pipeline says of a frame, whether it has these nodes then, and how many came back.
fn says(
    rt: &impl Abort,
    alloc: Global,
    pipeline: &mut Pipeline,
    texts: (&'static str, &'static str),
    mint: &mut Mint,
) -> (&'static str, bool, usize) {
    let frame = frame_of(rt, alloc, texts.0, mint);
    match pipeline.read(alloc, frame, mint) {
        Ok((step, back)) => {
            let (word, same) = told(&step, texts.1);
            (word, same, came_back(back))
        }
        Err((frame, back)) => ("refused", shows(&frame, texts.1), came_back(back)),
    }
}

#[test]
fn a_handler_sees_what_reaches_it(rt: HostRuntime) {
    let alloc = rt.alloc();
    let mut mint = Mint::new();
    let word = Arc::new(alloc, AtomicU64::new(0)).expect(&rt, "memory for a word");
    let mut stages: Vec<Stage> = Vec::new(alloc);
    let third = Third::boxed(alloc, &word).expect(&rt, "memory for a handler");
    stages.push(Stage::Min(2)).expect(&rt, "memory for a stage");
    stages
        .push(Stage::Boxed(third))
        .ok()
        .expect(&rt, "memory for a stage");
    stages.push(Stage::Upper).expect(&rt, "memory for a stage");
    let mut pipeline = Pipeline::new(stages);
    let rows = [
        (("a", "a"), "skip", 0),
        (("ab", "AB"), "pass", 1),
        (("", ""), "skip", 1),
        (("cd", "CD"), "pass", 2),
        (("ef", "ef"), "fail 5", 3),
        (("gh", "GH"), "pass", 4),
    ];
    for (texts, said, count) in rows {
        assert!(rt; says(&rt, alloc, &mut pipeline, texts, &mut mint) == (said, true, 0));
        assert!(rt; word.load(Ordering::SeqCst) == count);
    }
}

#[test]
fn a_refused_frame_comes_back(rt: HostRuntime) {
    let alloc = rt.alloc();
    let mut mint = Mint::new();
    let mut stages: Vec<Stage> = Vec::new(alloc);
    let greedy: AnyHandler = Box::new(alloc, Greedy { refused: 0 }).expect(&rt, "memory");
    stages
        .push(Stage::Strip(3))
        .expect(&rt, "memory for a stage");
    stages
        .push(Stage::Boxed(greedy))
        .ok()
        .expect(&rt, "memory for a stage");
    stages.push(Stage::Upper).expect(&rt, "memory for a stage");
    let mut pipeline = Pipeline::new(stages);
    sends(&pipeline);
    let answer = says(&rt, alloc, &mut pipeline, ("ab|cd", "d"), &mut mint);
    assert!(rt; answer == ("refused", true, 1));
}
