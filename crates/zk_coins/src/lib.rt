//! Coins: words of ChaCha20 under a key of 32 bytes, by stream and place.
//!
//! `CoinBox` has all. As a verifier takes the root of tree i of unit u:
//!
//!     let root = CoinBox::new(&coin_key).seed16(4 * u, i);
#![tactic(auto)]

ghost use Rattle.std.specs.Prelude.{◌≡◌, ◌+◌, ◌*◌, ◌^◌, ◌<◌, length};
ghost use Rattle.rand_chacha.specs.ChaCha.{word_at};
ghost use Rattle.zk_model.specs.Coins.{coin_word, seed16, stream_bytes};
ghost use Rattle.zk_coins.specs.Words.{coin_words};

use rand_chacha::ChaCha20Rng;
use rand_core::SeedableRng;
use rand_core::utils::NextWord;
use std::marker::Model;

/// A source of coins under a key of 32 bytes. A coin is a 64-bit word, named by the number of its stream and its place
/// there. The words are those of ChaCha20 (Bernstein, ChaCha, a variant of Salsa20, 2008; RFC 8439, 2.1 to 2.3) with a
/// block counter and a stream number of 64 bits each, as `rand_chacha` counts them; two 32-bit words make a coin, the
/// low half first. Every stream and every place has one, and no call takes memory. Contracts see of it the key.
#[derive(Clone, Copy, Debug)]
pub struct CoinBox {
    key: [u8; 32],
}

impl Model for CoinBox {
    ghost use Rattle.std.specs.Prelude.{List, ℕ};

    ghost Value = { List ℕ };

    ghost view = { λ b. b.key };

    ghost inverse = { λ key. record { key = key } };
}

impl CoinBox {
    /// The coins under this key.
    pub fn new(key: &[u8; 32]) -> Self
        ensures { result ≡ key.now }
    {
        CoinBox { key: *key }
    }

    /// The word at a place of a stream.
    pub fn word(&self, stream: u64, place: u64) -> u64
        ensures { result ≡ coin_word self.now stream place }
    {
        let mut words = [0; 1];
        self.fill(stream, u128::from(place), &mut words);
        words[0]
    }

    /// Fills the buffer with the words of a stream from a place on. It walks along the stream, which is many times as
    /// fast as to seek word after word.
    pub fn words(&self, stream: u64, first: u64, words: &mut [u64])
        ensures { words.new ≡ coin_words self.now stream first (length words.old) }
    {
        self.fill(stream, u128::from(first), words);
    }

    /// Words 2i and 2i + 1 of a stream as 16 bytes, each with its low byte first.
    pub fn seed16(&self, stream: u64, i: u64) -> [u8; 16]
        ensures { result ≡ seed16 self.now stream i }
    {
        let mut words = [0; 2];
        self.fill(stream, 2 * u128::from(i), &mut words);
        let mut bytes = [0; 16];
        let (front, back) = bytes.split_at_mut(8);
        front.copy_from_slice(&words[0].to_le_bytes());
        back.copy_from_slice(&words[1].to_le_bytes());
        bytes
    }

    /// The first four words of a stream, each with its low byte first.
    pub fn bytes(&self, stream: u64) -> [u8; 32]
        ensures { result ≡ stream_bytes self.now stream }
    {
        let mut bytes = [0; 32];
        let (front, back) = bytes.split_at_mut(16);
        front.copy_from_slice(&self.seed16(stream, 0));
        back.copy_from_slice(&self.seed16(stream, 1));
        bytes
    }

    /// Fills the buffer with the words of a stream from a place on, which may be twice a 64-bit number.
    fn fill(&self, stream: u64, first: u128, words: &mut [u64])
        requires { first < 2 ^ 65 }
        ensures { words.new ≡ coin_words self.now stream first (length words.old) }
    {
        let mut generator = ChaCha20Rng::from_seed(self.key);
        generator.set_stream(stream);
        generator.set_word_pos(2 * first);
        for word in words.iter_mut() {
            *word = next_pair(&mut generator);
        }
    }
}

/// The next two words of the generator as one, the low half first.
fn next_pair(generator: &mut ChaCha20Rng) -> u64
    requires { generator.old.word_pos + 2 < 2 ^ 68 }
    ensures value { result ≡ word_at 10 generator.old.key generator.old.stream generator.old.word_pos
        + 2 ^ 32 * word_at 10 generator.old.key generator.old.stream (generator.old.word_pos + 1) }
    ensures after { generator.new ≡ record generator.old { word_pos = generator.old.word_pos + 2 } }
{
    let low = u64::from(generator.next_word());
    let high = u64::from(generator.next_word());
    low + (high << 32)
}
