//! The families of the page: what each is called, what it means and how it counts.
ghost use Rattle.std.specs.Prelude.{◌≡◌};
ghost use Rattle.canvas_status.specs.Families.{family_help, family_kind, family_name};

/// A family of samples of the page.
#[derive(Clone, Copy, Debug, PartialEq, Eq)]
pub(crate) enum Family {
    Build,
    Uptime,
    Generation,
    Version,
    Kept,
    Seats,
    OpenSessions,
    Sessions,
    RefusedConnections,
    MissedConnections,
    Followers,
    FollowerLag,
    Requests,
    Refusals,
    SentBytes,
    PaintedPictures,
    KeptPictures,
    Syncs,
    SyncSeconds,
}

/// All families, in the order of the page.
pub(crate) const FAMILIES: [Family; 19] = [
    Family::Build,
    Family::Uptime,
    Family::Generation,
    Family::Version,
    Family::Kept,
    Family::Seats,
    Family::OpenSessions,
    Family::Sessions,
    Family::RefusedConnections,
    Family::MissedConnections,
    Family::Followers,
    Family::FollowerLag,
    Family::Requests,
    Family::Refusals,
    Family::SentBytes,
    Family::PaintedPictures,
    Family::KeptPictures,
    Family::Syncs,
    Family::SyncSeconds,
];

impl Family {
    /// Its name.
    #[tactic(auto, unfolding(crate::specs::Families::family_name))]
    pub(crate) fn name(self) -> &'static str
        ensures { result.now ≡ family_name self }
    {
        match self {
            Family::Build => "canvas_build_info",
            Family::Uptime => "canvas_uptime_seconds",
            Family::Generation => "canvas_generation",
            Family::Version => "canvas_version",
            Family::Kept => "canvas_kept_version",
            Family::Seats => "canvas_seats",
            Family::OpenSessions => "canvas_open_sessions",
            Family::Sessions => "canvas_sessions_total",
            Family::RefusedConnections => "canvas_refused_connections_total",
            Family::MissedConnections => "canvas_missed_connections_total",
            Family::Followers => "canvas_followers",
            Family::FollowerLag => "canvas_follower_lag_edits",
            Family::Requests => "canvas_requests_total",
            Family::Refusals => "canvas_refusals_total",
            Family::SentBytes => "canvas_sent_bytes_total",
            Family::PaintedPictures => "canvas_painted_pictures_total",
            Family::KeptPictures => "canvas_kept_pictures_total",
            Family::Syncs => "canvas_syncs_total",
            Family::SyncSeconds => "canvas_sync_seconds_total",
        }
    }

    /// What it means.
    #[tactic(auto, unfolding(crate::specs::Families::family_help))]
    pub(crate) fn help(self) -> &'static str
        ensures { result.now ≡ family_help self }
    {
        match self {
            Family::Build => "The version of the program.",
            Family::Uptime => "Seconds since the program began.",
            Family::Generation => "The generation that is served.",
            Family::Version => "The newest version of the document.",
            Family::Kept => "The newest version that is on the disk.",
            Family::Seats => "Sessions that may be at once.",
            Family::OpenSessions => "Sessions now.",
            Family::Sessions => "Sessions that began.",
            Family::RefusedConnections => "Connections that found no seat that they may have.",
            Family::MissedConnections =>
                "Times that no connection could be accepted, for want of memory or files.",
            Family::Followers => "Followers of the feed now.",
            Family::FollowerLag =>
                "Edits on the disk that were not sent yet to the follower farthest behind.",
            Family::Requests => "Lines that were answered, by verb.",
            Family::Refusals => "Answers that were refusals, by name.",
            Family::SentBytes => "Bytes sent to sessions.",
            Family::PaintedPictures => "Pictures that were painted.",
            Family::KeptPictures => "Pictures that were answered as they were kept.",
            Family::Syncs => "Times that edits were put on the disk.",
            Family::SyncSeconds => "Seconds that putting edits on the disk took.",
        }
    }

    /// How it counts, as a type of the format.
    #[tactic(auto, unfolding(crate::specs::Families::family_kind))]
    pub(crate) fn kind(self) -> &'static str
        ensures { result.now ≡ family_kind self }
    {
        match self {
            Family::Build => "gauge",
            Family::Uptime => "gauge",
            Family::Generation => "gauge",
            Family::Version => "gauge",
            Family::Kept => "gauge",
            Family::Seats => "gauge",
            Family::OpenSessions => "gauge",
            Family::Sessions => "counter",
            Family::RefusedConnections => "counter",
            Family::MissedConnections => "counter",
            Family::Followers => "gauge",
            Family::FollowerLag => "gauge",
            Family::Requests => "counter",
            Family::Refusals => "counter",
            Family::SentBytes => "counter",
            Family::PaintedPictures => "counter",
            Family::KeptPictures => "counter",
            Family::Syncs => "counter",
            Family::SyncSeconds => "counter",
        }
    }
}
