// The eight counters: their sum, and one more in one of them.
ghost use Rattle.std.specs.Prelude.{◌≡◌};
ghost use Rattle.rules.specs.Book.{sum, with_one_more};
ghost use Rattle.book.specs.Answers.{MayAdd};

// No eight numbers are too great for it.
pub fn total(c: [u32; 8]) -> u64
    ensures { result ≡ sum c }
{
    c.iter().map(|x| u64::from(*x)).sum()
}

pub fn one_more(mut c: [u32; 8], n: usize) -> [u32; 8]
    requires { MayAdd c n }
    ensures { result ≡ with_one_more c n }
{
    c[n - 1] += 1;
    c
}
