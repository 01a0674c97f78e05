//! The host's answer is the only one that its table allows.
ghost use Rattle.std.specs.Prelude.{◌≡◌, ℕ, Option, Bool};
ghost use Rattle.http_message.specs.declared.Request.{Request};
ghost use Rattle.http_message.specs.declared.Response.{Response};
ghost use Rattle.wopi_host.specs.Keepers.{Files};
ghost use Rattle.wopi_host.specs.Targets.{Named};
ghost use Rattle.wopi_host.specs.Hosts.{Pages, HostAt, HostStays, Answers, told_host};

/// From the files, the keeper's count of keeps, the locks and the counts of puts, the request and
/// the moment there is one response, and one state after it, where the keeper didn't fail.
pub fn answers_are_one()
    ensures { (named : Named) (right : Option Bool) (files : Files) (accepted : ℕ)
        (pages : Pages) (r : Request) (now : ℕ) (one two : Response) (after_one after_two : HostAt)
        → Answers named right (told_host files accepted pages) r now one after_one
        → Answers named right (told_host files accepted pages) r now two after_two
        → (one ≡ two) × HostStays after_one after_two }
{}
