// Sums, prods and factors: they call each other, and each row is written behind its parts'. Each rule of the grammar has
// its function: one for sums and prods both would take the part, its sign and what they mean, and be no plainer.
ghost use Rattle.reader.specs.Summing.{SumAnswer, ProdAnswer, FactorAnswer};

use crate::reader::Reader;
use crate::seen::Refusal;
use grammar::{Join, Mark, Operand};
use tables::Kind;

impl Reader<'_> {
    ghost use Rattle.reader.specs.Holding.{Reads};

    #[cycle(factor_prod_sum)]
    pub(crate) fn sum(&mut self) -> Result<(), Refusal>
        ensures { Reads SumAnswer self.old self.new result }
    {
        let first = self.progress.count;
        self.prod()?;
        'more: loop {
            let seen = self.see();
            let Some(Join::Additive(operator)) = seen.lexeme.join() else {
                return Ok(());
            };
            self.progress.pass(seen);
            self.prod()?;
            self.tell(Kind::from(operator), 0, first, seen.place);
        }
    }

    #[cycle(factor_prod_sum)]
    fn prod(&mut self) -> Result<(), Refusal>
        ensures { Reads ProdAnswer self.old self.new result }
    {
        let first = self.progress.count;
        self.factor()?;
        'more: loop {
            let seen = self.see();
            let Some(Join::Multiplicative(operator)) = seen.lexeme.join() else {
                return Ok(());
            };
            self.progress.pass(seen);
            self.factor()?;
            self.tell(Kind::from(operator), 0, first, seen.place);
        }
    }

    #[cycle(factor_prod_sum)]
    fn factor(&mut self) -> Result<(), Refusal>
        ensures { Reads FactorAnswer self.old self.new result }
    {
        let seen = self.see();
        match seen.taken(seen.lexeme.operand())? {
            Operand::Number(value) => {
                self.leaf(Kind::Number, value, seen);
                Ok(())
            }
            Operand::Name(point) => {
                self.leaf(Kind::Name, point as i32, seen);
                Ok(())
            }
            Operand::Bracket => {
                self.progress.enter(seen)?;
                self.sum()?;
                let _ = self.expect(Mark::Close)?;
                self.progress.leave();
                Ok(())
            }
        }
    }
}
