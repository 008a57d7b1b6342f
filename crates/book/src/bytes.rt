// The bytes of a part of a book.
ghost use Rattle.std.specs.Prelude.{◌+◌, ◌≤◌, length};
ghost use Rattle.book.specs.Layout.{PartOf};

pub(crate) fn bytes_at<const N: usize>(book: &[u8], at: usize) -> [u8; N]
    requires { at + N ≤ length book.now }
    ensures { PartOf N result book.now at }
{
    *book[at..].first_chunk().unwrap()
}
