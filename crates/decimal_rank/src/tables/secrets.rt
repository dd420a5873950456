//! Secrets by which tables hash what comes from outside. A table draws its own secret when it is
//! made, from the system's random source, and hashes by SipHash over the secret and then the key.
//! So nobody who doesn't have the secret can craft keys that share a hash. Nothing but the time
//! that a table takes depends on a secret: contracts see what a hash is of, and never rest on it.
ghost use Rattle.std.specs.Prelude.{◌≡◌, pos};
ghost use Rattle.decimal_rank.specs.Tables.TextKeys.{secret_of, text_key};

use libc::types::timespec;
use std::hash::{BuildHasher, DefaultHasher, Hasher};

/// How many bytes of a secret the system's random source gives.
const SECRET_BYTES: usize = 16;

/// The secret of a table: a hash function that has taken in the secret's bytes.
#[derive(Clone, Copy)]
pub struct Secret {
    seeded: DefaultHasher,
}

impl Secret {
    /// A secret of the system's random source. Where this doesn't answer, one of the clocks and the
    /// process, which is weaker: a program says so when it starts, by `is_source_answering`.
    pub fn drawn() -> Secret {
        let mut bytes = [0; SECRET_BYTES];
        let status = libc::getentropy(&mut bytes);
        Secret::of_answer(status, &bytes)
    }

    /// Of the bytes that the random source gave, where its status says that it answered.
    fn of_answer(status: i32, bytes: &[u8]) -> Secret
        ensures { status ≡ pos 0 → result ≡ secret_of bytes.now }
    {
        if status != 0 {
            return Secret::of_clocks();
        }
        let mut seeded = DefaultHasher::new();
        seeded.write(bytes);
        Secret { seeded }
    }

    /// Whether the system's random source answers.
    pub fn is_source_answering() -> bool {
        let mut bytes = [0; SECRET_BYTES];
        libc::getentropy(&mut bytes) == 0
    }

    fn of_clocks() -> Secret {
        let mut seeded = DefaultHasher::new();
        for clock in [libc::CLOCK_REALTIME, libc::CLOCK_PROCESS_CPUTIME_ID] {
            let mut time = timespec {
                tv_sec: 0,
                tv_nsec: 0,
            };
            let _status = libc::clock_gettime(clock, &mut time);
            seeded.write_i64(time.tv_sec);
            seeded.write_i64(time.tv_nsec);
        }
        seeded.write_i32(libc::getpid());
        Secret { seeded }
    }

    /// The key of a text in a table of this secret, by one write of its bytes.
    pub fn key_of(&self, text: &[u8]) -> u64
        ensures { result ≡ text_key self.now text.now }
    {
        let mut state = self.seeded;
        state.write(text);
        state.finish()
    }
}

impl BuildHasher for Secret {
    type Hasher = DefaultHasher;

    ghost build_hasher = { λ secret. secret.seeded };

    fn build_hasher(&self) -> DefaultHasher {
        self.seeded
    }
}
