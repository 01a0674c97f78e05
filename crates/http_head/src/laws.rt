//! What holds of heads whatever reads them.
ghost use Rattle.std.specs.Prelude.{◌≡◌, ℕ, List, ◌++◌};
ghost use Rattle.http_head.specs.Corners.{ends_in};
ghost use Rattle.http_head.specs.declared.parts.RequestParts.{RequestParts};
ghost use Rattle.http_head.specs.declared.parts.ResponseParts.{ResponseParts};
ghost use Rattle.http_head.specs.Requests.{ReadsRequestHead, BeginsRequest, IsNoRequest};
ghost use Rattle.http_head.specs.Responses.{ReadsResponseHead, BeginsResponse, IsNoResponse};

/// Bytes begin with one whole head of a request at most, and it stays whatever follows. Bytes with a
/// whole head, bytes that begin one and bytes that are none are three different things. Bytes that
/// are none stay so whatever follows, and a front of bytes that begin a head begins it. Bytes that end
/// no line make no begun head whole.
pub fn requests_are_read_in_one_way()
    ensures one { (bytes : List ℕ) (p q : RequestParts) (r s : List ℕ) → ReadsRequestHead bytes p r → ReadsRequestHead bytes q s → (p ≡ q) × (r ≡ s) }
    ensures stays { (bytes more : List ℕ) (p : RequestParts) (r : List ℕ) → ReadsRequestHead bytes p r → ReadsRequestHead (bytes ++ more) p (r ++ more) }
    ensures not_begun { (bytes : List ℕ) (p : RequestParts) (r : List ℕ) → ReadsRequestHead bytes p r → BeginsRequest bytes → ⊥ }
    ensures not_none { (bytes : List ℕ) (p : RequestParts) (r : List ℕ) → ReadsRequestHead bytes p r → IsNoRequest bytes → ⊥ }
    ensures begun_or_none { (bytes : List ℕ) → BeginsRequest bytes → IsNoRequest bytes → ⊥ }
    ensures none_stays { (bytes more : List ℕ) → IsNoRequest bytes → IsNoRequest (bytes ++ more) }
    ensures begun_before { (bytes more : List ℕ) → BeginsRequest (bytes ++ more) → BeginsRequest bytes }
    ensures open_without_an_end { (bytes more : List ℕ) (p : RequestParts) (r : List ℕ) → BeginsRequest bytes → ends_in more ≡ 0 → ReadsRequestHead (bytes ++ more) p r → ⊥ }
{}

/// The same of responses.
pub fn responses_are_read_in_one_way()
    ensures one { (bytes : List ℕ) (p q : ResponseParts) (r s : List ℕ) → ReadsResponseHead bytes p r → ReadsResponseHead bytes q s → (p ≡ q) × (r ≡ s) }
    ensures stays { (bytes more : List ℕ) (p : ResponseParts) (r : List ℕ) → ReadsResponseHead bytes p r → ReadsResponseHead (bytes ++ more) p (r ++ more) }
    ensures not_begun { (bytes : List ℕ) (p : ResponseParts) (r : List ℕ) → ReadsResponseHead bytes p r → BeginsResponse bytes → ⊥ }
    ensures not_none { (bytes : List ℕ) (p : ResponseParts) (r : List ℕ) → ReadsResponseHead bytes p r → IsNoResponse bytes → ⊥ }
    ensures begun_or_none { (bytes : List ℕ) → BeginsResponse bytes → IsNoResponse bytes → ⊥ }
    ensures none_stays { (bytes more : List ℕ) → IsNoResponse bytes → IsNoResponse (bytes ++ more) }
    ensures begun_before { (bytes more : List ℕ) → BeginsResponse (bytes ++ more) → BeginsResponse bytes }
    ensures open_without_an_end { (bytes more : List ℕ) (p : ResponseParts) (r : List ℕ) → BeginsResponse bytes → ends_in more ≡ 0 → ReadsResponseHead (bytes ++ more) p r → ⊥ }
{}
