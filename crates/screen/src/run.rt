// Sheets, from rows. A command's last part ends just before its row, and each part before that ends where the one after
// it begins. Steps are those made before the call; those made by the end of it are told.
ghost use Rattle.std.specs.Prelude.{ℕ, length};
ghost use Rattle.tables.specs.Trees.{Condition as ConditionTree, Command as CommandTree, Sheet as SheetTree, when as whenOf, choose as chooseOf, while as whileOf, only, joint as jointOf};
ghost use Rattle.screen.specs.Parts.{SheetAt};
ghost use Rattle.screen.specs.Runs.{Ran};

use crate::halt::Halt;
use crate::work::Work;
use tables::Kind;

impl Work<'_> {
    // The sheet that ends at `end`.
    #[cycle(sheet)]
    pub(crate) fn sheet(&self, end: usize, points: &mut [i32], before: u32) -> Result<u32, Halt>
        requires { (t : SheetTree) × SheetAt self.now.rows.now end (length points.old) t }
        ensures { (t : SheetTree) → SheetAt self.now.rows.now end (length points.old) t → Ran points.old t before self.now.allowance result points.new }
    {
        match self.rows[end - 1].kind {
            Kind::Set => self.assign(end, points, before),
            Kind::If => self.when(end, points, before),
            Kind::IfElse => self.choose(end, points, before),
            Kind::While => self.repeat(end, points, before),
            _ => self.joint(end, points, before),
        }
    }

    // A condition and a body.
    #[cycle(sheet)]
    fn when(&self, end: usize, points: &mut [i32], before: u32) -> Result<u32, Halt>
        requires { (q : ℕ) × (h : ConditionTree) × (b : SheetTree) × SheetAt self.now.rows.now end (length points.old) (only (whenOf q h b)) }
        ensures { (q : ℕ) (h : ConditionTree) (b : SheetTree) → SheetAt self.now.rows.now end (length points.old) (only (whenOf q h b)) → Ran points.old (only (whenOf q h b)) before self.now.allowance result points.new }
    {
        let (holds, made) = self.judge(self.start_of(end - 1), points, before)?;
        if holds {
            self.sheet(end - 1, points, made)
        } else {
            Ok(made)
        }
    }

    // A condition and two bodies.
    #[cycle(sheet)]
    fn choose(&self, end: usize, points: &mut [i32], before: u32) -> Result<u32, Halt>
        requires { (q : ℕ) × (h : ConditionTree) × (b : SheetTree) × (d : SheetTree) × SheetAt self.now.rows.now end (length points.old) (only (chooseOf q h b d)) }
        ensures { (q : ℕ) (h : ConditionTree) (b : SheetTree) (d : SheetTree) → SheetAt self.now.rows.now end (length points.old) (only (chooseOf q h b d)) → Ran points.old (only (chooseOf q h b d)) before self.now.allowance result points.new }
    {
        let second = self.start_of(end - 1);
        let (holds, made) = self.judge(self.start_of(second), points, before)?;
        if holds {
            let first = self.sheet(second, points, made)?;
            self.one_more(first)
        } else {
            self.sheet(end - 1, points, made)
        }
    }

    // A command and the sheet after it.
    #[cycle(sheet)]
    fn joint(&self, end: usize, points: &mut [i32], before: u32) -> Result<u32, Halt>
        requires { (q : ℕ) × (k : CommandTree) × (b : SheetTree) × SheetAt self.now.rows.now end (length points.old) (jointOf q k b) }
        ensures { (q : ℕ) (k : CommandTree) (b : SheetTree) → SheetAt self.now.rows.now end (length points.old) (jointOf q k b) → Ran points.old (jointOf q k b) before self.now.allowance result points.new }
    {
        let made = self.sheet(self.start_of(end - 1), points, before)?;
        self.sheet(end - 1, points, made)
    }

    // A condition and a body, again and again: a loop and no recursion, so that the stack grows with the sheet's nesting
    // alone.
    #[cycle(sheet)]
    fn repeat(&self, end: usize, points: &mut [i32], before: u32) -> Result<u32, Halt>
        requires { (q : ℕ) × (h : ConditionTree) × (b : SheetTree) × SheetAt self.now.rows.now end (length points.old) (only (whileOf q h b)) }
        ensures { (q : ℕ) (h : ConditionTree) (b : SheetTree) → SheetAt self.now.rows.now end (length points.old) (only (whileOf q h b)) → Ran points.old (only (whileOf q h b)) before self.now.allowance result points.new }
    {
        let test = self.start_of(end - 1);
        let mut made = before;
        'rounds: loop {
            let (holds, tested) = self.judge(test, points, made)?;
            if !holds {
                return Ok(tested);
            }
            let body = self.sheet(end - 1, points, tested)?;
            made = self.one_more(body)?;
        }
    }
}
