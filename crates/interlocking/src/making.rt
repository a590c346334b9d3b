// An interlocking made, and looked at.
ghost use Rattle.std.specs.Prelude.{◌≡◌, None};
ghost use Rattle.network.specs.Sheets.{plan_of};
ghost use Rattle.book.specs.Books.{new_book};
ghost use Rattle.interlocking.specs.Calls.{new_interlocking};
ghost use Rattle.interlocking.specs.Fitness.{unfit_for};
ghost use Rattle.interlocking.specs.Safety.{NeverInDanger};

use crate::Interlocking;
use crate::fitness::unfit_for;
use book::Book;
use book::refusal::Unfit;
use network::sheet::Sheet;
use trackside::Work;

impl<T: Work> Interlocking<T> {
    fn assembled(trackside: T, sheet: Sheet, yard: u8, unfit: Option<Unfit>) -> Interlocking<T>
        ensures made { result ≡ record { trackside = trackside; sheet = sheet; yard = yard; book = new_book; unfit = unfit } }
        ensures safe { unfit ≡ unfit_for (T.Look.as_ground trackside) (plan_of sheet).blocks → unfit ≡ None → NeverInDanger T.Look result }
    {
        Interlocking {
            trackside,
            sheet,
            yard,
            book: Book::new(),
            unfit,
        }
    }

    // Takes a trackside over. Where it cannot be worked by the sheet, the interlocking is out of service; else no danger ever
    // comes about, whatever is called.
    pub fn make(trackside: T, sheet: Sheet, yard: u8) -> Interlocking<T>
        ensures made { result ≡ new_interlocking T.Look trackside sheet yard }
        ensures safe { result.unfit ≡ None → NeverInDanger T.Look result }
    {
        let unfit = unfit_for(&trackside, &sheet.network());
        Interlocking::assembled(trackside, sheet, yard, unfit)
    }

    // The trackside, to be looked at.
    pub fn trackside(&self) -> &T
        ensures { result.now ≡ self.now.trackside }
    {
        &self.trackside
    }

    // The book, to be looked at.
    pub fn book(&self) -> &Book
        ensures { result.now ≡ self.now.book }
    {
        &self.book
    }

    // Why it is out of service; none while it is in service.
    pub fn unfit(&self) -> Option<Unfit>
        ensures { result ≡ self.now.unfit }
    {
        self.unfit
    }
}
