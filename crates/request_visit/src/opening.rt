//! How a request comes to the container.

ghost use Rattle.std.specs.Prelude.{◌≡◌};
ghost use Rattle.request_visit.specs.Visits.{turn};
ghost use Rattle.request_visit.specs.declared.visit.Work.TheVariants.{Serving};

use crate::visit::{Turn, Visit, Work};
use request_tries::RequestTries;

impl<P: Drop> Visit<P> {
    /// Its program is given, and it is served in the container from now on. It takes no memory.
    pub fn open(&mut self, tries: RequestTries, program: P)
        requires { turn self.old ≡ Turn.Program }
        ensures { self.new ≡ record self.old { work = Serving tries program } }
    {
        self.set_work(Work::Serving(tries, program));
    }
}
