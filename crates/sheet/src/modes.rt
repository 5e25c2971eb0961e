// What an issued sheet answers about a mode.
ghost use Rattle.std.specs.Prelude.{◌≡◌};
ghost use Rattle.guards.specs.Meaning.{modes};
ghost use Rattle.sheet.specs.Ledger.{Bounded};
ghost use Rattle.sheet.specs.Past.{Past, ledger_of};
ghost use Rattle.sheet.specs.Signatures.{signed, shown};

use crate::{Draft, Issued};
use faults::Fault;
use guards::GuardBook;
use reading::Setting;
use sigma::Table;

impl<B: GuardBook> Issued<B> {
    // How many modes there are.
    pub fn modes(&self) -> usize
        ensures count { result ≡ modes self.now.book }
        ensures bounds { Bounded B.MOST_SWITCHES self.now }
    {
        self.draft.modes()
    }

    // The signature of an allowed mode.
    pub fn signature(&self, mode: usize) -> Result<Table, Fault>
        ensures given { shown result ≡ signed self.now mode }
        ensures past { (p : Past) → ledger_of p ≡ self.now → shown result ≡ signed (ledger_of p) mode }
    {
        if mode >= self.modes() {
            return Err(Fault::NoSuchMode);
        }
        let Draft { book, lines } = &self.draft;
        let setting = Setting { book, mode };
        if !setting.says(lines.assumed as usize) {
            return Err(Fault::ModeNotAllowed);
        }
        Ok(setting.signature(&lines.equations, &lines.variables, &lines.occurrences))
    }
}
