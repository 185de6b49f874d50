// Conditions, conjuncts and literals: they call each other, and group from the right. Each rule of the grammar has its
// function: one for conditions and conjuncts both would take the part, its sign and what they mean, and be no plainer.
ghost use Rattle.reader.specs.Judging.{ConditionAnswer, ConjunctAnswer, LiteralAnswer, BracketAnswer, ComparisonAnswer};

use crate::reader::Reader;
use crate::seen::Refusal;
use grammar::{Link, LiteralStart, Mark};
use tables::Kind;

impl Reader<'_> {
    ghost use Rattle.reader.specs.Holding.{Reads};

    #[cycle(bracketed_condition_conjunct_literal)]
    pub(crate) fn condition(&mut self) -> Result<(), Refusal>
        ensures { Reads ConditionAnswer self.old self.new result }
    {
        let first = self.progress.count;
        self.conjunct()?;
        let seen = self.see();
        if seen.lexeme.link() == Some(Link::Or) {
            self.progress.pass(seen);
            self.condition()?;
            self.tell(Kind::Or, 0, first, seen.place);
        }
        Ok(())
    }

    #[cycle(bracketed_condition_conjunct_literal)]
    fn conjunct(&mut self) -> Result<(), Refusal>
        ensures { Reads ConjunctAnswer self.old self.new result }
    {
        let first = self.progress.count;
        self.literal()?;
        let seen = self.see();
        if seen.lexeme.link() == Some(Link::And) {
            self.progress.pass(seen);
            self.conjunct()?;
            self.tell(Kind::And, 0, first, seen.place);
        }
        Ok(())
    }

    #[cycle(bracketed_condition_conjunct_literal)]
    fn literal(&mut self) -> Result<(), Refusal>
        ensures { Reads LiteralAnswer self.old self.new result }
    {
        let first = self.progress.count;
        let seen = self.see();
        match seen.lexeme.literal_start() {
            LiteralStart::Truth(value) => {
                self.leaf(Kind::Truth, i32::from(value), seen);
                Ok(())
            }
            LiteralStart::Not => {
                self.progress.pass(seen);
                self.literal()?;
                self.tell(Kind::Not, 0, first, seen.place);
                Ok(())
            }
            LiteralStart::Bracket => {
                if self.opens_condition(seen) {
                    self.bracketed()
                } else {
                    self.comparison()
                }
            }
            LiteralStart::Sum => self.comparison(),
        }
    }

    // A condition in brackets: behind `if` and `while`, and as a literal.
    #[cycle(bracketed_condition_conjunct_literal)]
    pub(crate) fn bracketed(&mut self) -> Result<(), Refusal>
        ensures { Reads BracketAnswer self.old self.new result }
    {
        let seen = self.expect(Mark::Open)?;
        self.progress.enter(seen)?;
        self.condition()?;
        let _ = self.expect(Mark::Close)?;
        self.progress.leave();
        Ok(())
    }

    // Two sums with a comparison between.
    fn comparison(&mut self) -> Result<(), Refusal>
        ensures { Reads ComparisonAnswer self.old self.new result }
    {
        let first = self.progress.count;
        self.sum()?;
        let seen = self.see();
        let Some(comparison) = seen.lexeme.comparison() else {
            return Err(seen.refusal());
        };
        self.progress.pass(seen);
        self.sum()?;
        self.tell(
            Kind::Compare,
            i32::from(u8::from(comparison)),
            first,
            seen.place,
        );
        Ok(())
    }
}
