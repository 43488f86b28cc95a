//! An asker that counts.
ghost use Rattle.std.specs.Prelude.{◌≡◌, [], length};

use ask_model::{AskStop, Asker, Known};
use turk_base::{Data, Path, Record, Units, Whole};

/// An asker, and how many records were made with it.
#[derive(Drop)]
pub struct Counting<A> {
    asker: A,
    made: u32,
}

impl<A: Asker> Counting<A> {
    /// Over an asker that has made no record.
    pub fn new(asker: A) -> Counting<A>
        requires { (A.seen asker).made ≡ [] }
        ensures asker { result.asker ≡ asker }
        ensures made { result.made ≡ length (A.seen asker).made }
    {
        Counting { asker, made: 0 }
    }
}

impl<A> Counting<A> {
    /// How many records were made.
    pub fn made(&self) -> u32
        ensures { result ≡ self.now.made }
    {
        self.made
    }
}

/// It is as the asker that it counts for.
impl<A: Asker> Asker for Counting<A> {
    ghost use Rattle.std.specs.Prelude.{◌≡◌, length};

    ghost seen = { λ c. A.seen c.asker };

    ghost fits = { λ c. A.fits c.asker };

    ghost is_sound = { λ c. A.is_sound c.asker × (c.made ≡ length (A.seen c.asker).made) };

    ghost words = { λ c. A.words c.asker };

    ghost refuses = { A.refuses };

    ghost tells_tasks = { A.tells_tasks };

    ghost tells_traces = { A.tells_traces };

    ghost moment = { λ c. A.moment c.asker };

    ghost left_since = { λ c. A.left_since c.asker };

    ghost keeps = { λ old new. A.keeps old.asker new.asker };

    ghost within = { λ s h. A.within s.asker h.0 };

    ghost known_left = { λ s told sound going. A.known_left s.asker told sound.0 going };

    ghost now_is = { λ s t told sound going left. A.now_is s.asker t told sound.0 going left };

    ghost counts_now = { λ s m t told le left. A.counts_now s.asker m t told le left };

    ghost keeps_refl = { λ s. A.keeps_refl s.asker };

    ghost keeps_trans = { λ a b c h k. A.keeps_trans a.asker b.asker c.asker h k };

    fn known(&mut self, path: &Path) -> Known {
        self.asker.known(path)
    }

    fn kept(&self) -> Option<&Record> {
        self.asker.kept()
    }

    fn post(&mut self, path: &Path, token: &Units, text: &Units) -> Result<(), AskStop> {
        let result = self.asker.post(path, token, text);
        if result.is_ok() {
            self.made += 1;
        }
        result
    }

    fn reply(&mut self, path: &Path, token: &Units) -> Result<Option<Units>, AskStop> {
        let result = self.asker.reply(path, token);
        if let Ok(Some(_)) = result {
            self.made += 1;
        }
        result
    }

    fn draw(&mut self, path: &Path, bound: Whole) -> Result<Whole, AskStop> {
        let result = self.asker.draw(path, bound);
        if result.is_ok() {
            self.made += 1;
        }
        result
    }

    fn once_done(&mut self, path: &Path, value: &Data) -> Result<(), AskStop> {
        let result = self.asker.once_done(path, value);
        if result.is_ok() {
            self.made += 1;
        }
        result
    }
}
