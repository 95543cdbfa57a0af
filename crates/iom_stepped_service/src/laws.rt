//! The laws of requests by single loads, each the contract of a function that takes laws of those below.
ghost use Rattle.iom_stepped_service.specs.Runs.{AnswersAreRequests, RunsAreRequests};
ghost use Rattle.iom_stepped_service.specs.Service.{RunsServe};

use iom_stepped_requests::laws::{kept_law, whole_law};

/// A request all of whose loads are made from one memory is answered as one that is served at once, and what its loads keep
/// in the two caches is what that keeps.
pub fn service_law()
    ensures { RunsServe }
{
    whole_law();
    kept_law();
}

/// So of the IOMMU's own calls: a request that begins, and all of whose loads are made before anything else, is answered as
/// one that is served in one event, and leaves what that leaves (`runs`); and so is one that has its answer when it begins
/// (`at_once`).
pub fn request_law()
    ensures runs { RunsAreRequests }
    ensures at_once { AnswersAreRequests }
{
    service_law();
}
