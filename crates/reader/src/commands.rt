// Sheets, commands and blocks: they call each other.
ghost use Rattle.names.specs.Lines.{lines_of};
ghost use Rattle.grammar.specs.declared.choice.CommandStart.TheVariants as command;
ghost use Rattle.reader.specs.Ordering.{Begins, SheetAnswer, CommandAnswer, BlockAnswer};

use crate::reader::Reader;
use crate::seen::{Refusal, Seen};
use grammar::{CommandStart, Mark};
use tables::Kind;

impl Reader<'_> {
    ghost use Rattle.reader.specs.Holding.{Reads};

    // One or more commands, up to the end of their block or of the text.
    #[cycle(block_command_if_command_sheet_while_command)]
    pub(crate) fn sheet(&mut self) -> Result<(), Refusal>
        ensures { Reads SheetAnswer self.old self.new result }
    {
        let first = self.progress.count;
        self.command()?;
        let seen = self.see();
        match seen.taken(seen.lexeme.command_start())? {
            CommandStart::CloseBlock | CommandStart::End => Ok(()),
            _ => {
                self.sheet()?;
                self.tell(Kind::Joint, 0, first, seen.place);
                Ok(())
            }
        }
    }

    #[cycle(block_command_if_command_sheet_while_command)]
    fn command(&mut self) -> Result<(), Refusal>
        ensures { Reads CommandAnswer self.old self.new result }
    {
        let seen = self.see();
        match seen.taken(seen.lexeme.command_start())? {
            CommandStart::Set(point) => self.set_command(seen, point),
            CommandStart::If => self.if_command(seen),
            CommandStart::While => self.while_command(seen),
            CommandStart::CloseBlock | CommandStart::End => Err(seen.refusal()),
        }
    }

    // `name = sum ;`, the name just seen.
    fn set_command(&mut self, seen: Seen, point: usize) -> Result<(), Refusal>
        requires { Begins (command.Set point) (lines_of self.old.names.text.now) self.old.text.now self.old.progress seen }
        ensures { Reads CommandAnswer self.old self.new result }
    {
        let first = self.progress.count;
        self.progress.pass(seen);
        let _ = self.expect(Mark::Becomes)?;
        self.sum()?;
        let _ = self.expect(Mark::Semicolon)?;
        self.tell(Kind::Set, point as i32, first, seen.place);
        Ok(())
    }

    // `if ( condition ) block`, perhaps with `else block`; the word `if` just seen.
    #[cycle(block_command_if_command_sheet_while_command)]
    fn if_command(&mut self, seen: Seen) -> Result<(), Refusal>
        requires { Begins command.If (lines_of self.old.names.text.now) self.old.text.now self.old.progress seen }
        ensures { Reads CommandAnswer self.old self.new result }
    {
        let first = self.progress.count;
        self.progress.pass(seen);
        self.bracketed()?;
        self.block()?;
        let next = self.see();
        if next.lexeme.mark() != Some(Mark::Else) {
            self.tell(Kind::If, 0, first, seen.place);
            return Ok(());
        }
        self.progress.pass(next);
        self.block()?;
        self.tell(Kind::IfElse, 0, first, seen.place);
        Ok(())
    }

    // `while ( condition ) block`, the word just seen.
    #[cycle(block_command_if_command_sheet_while_command)]
    fn while_command(&mut self, seen: Seen) -> Result<(), Refusal>
        requires { Begins command.While (lines_of self.old.names.text.now) self.old.text.now self.old.progress seen }
        ensures { Reads CommandAnswer self.old self.new result }
    {
        let first = self.progress.count;
        self.progress.pass(seen);
        self.bracketed()?;
        self.block()?;
        self.tell(Kind::While, 0, first, seen.place);
        Ok(())
    }

    // `{ sheet }`
    #[cycle(block_command_if_command_sheet_while_command)]
    fn block(&mut self) -> Result<(), Refusal>
        ensures { Reads BlockAnswer self.old self.new result }
    {
        let seen = self.expect(Mark::OpenBlock)?;
        self.progress.enter(seen)?;
        self.sheet()?;
        let end = self.see();
        if end.lexeme.command_start() != Ok(CommandStart::CloseBlock) {
            return Err(end.refusal());
        }
        self.progress.pass(end);
        self.progress.leave();
        Ok(())
    }
}
