//! Replies to teach-in telegrams.
ghost use Rattle.std.specs.Prelude.{◌≡◌};
ghost use Rattle.erp1_telegrams.specs.Contents.{rorg_in, payload_in, FitsRorg};
ghost use Rattle.teach_in.specs.Replies;

use erp1_telegrams::{Contents, Telegram};

// A telegram from the base ID, addressed to one sender.
pub(crate) fn addressed_reply(contents: Contents, id: u32, base: u32) -> Telegram
    requires { FitsRorg contents }
    ensures { result ≡ Replies.addressed_reply (rorg_in contents) (payload_in contents) id base }
{
    Telegram::with_contents(contents, base, 0, id, None)
}
