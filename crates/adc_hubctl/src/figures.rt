/// A field by which a hub tells pingers of itself.
#[derive(Clone, Copy)]
pub(crate) struct Figure {
    /// The field's name in messages.
    pub(crate) name: &'static str,
    /// Its name here.
    pub(crate) key: &'static str,
    /// Its name among metrics, and what it is, if it is a number.
    pub(crate) metric: Option<(&'static str, &'static str)>,
}

/// The fields, in the order in which they are printed.
pub(crate) const FIGURES: [Figure; 8] = [
    Figure {
        name: "NI",
        key: "name",
        metric: None,
    },
    Figure {
        name: "DE",
        key: "description",
        metric: None,
    },
    Figure {
        name: "VE",
        key: "version",
        metric: None,
    },
    Figure {
        name: "UC",
        key: "users",
        metric: Some(("adc_hub_users", "Users who are present.")),
    },
    Figure {
        name: "SS",
        key: "share",
        metric: Some(("adc_hub_share_bytes", "Bytes that they share.")),
    },
    Figure {
        name: "SF",
        key: "files",
        metric: Some(("adc_hub_files", "Files that they share.")),
    },
    Figure {
        name: "MC",
        key: "max_users",
        metric: Some((
            "adc_hub_max_users",
            "Connections that the hub admits at once.",
        )),
    },
    Figure {
        name: "UP",
        key: "uptime",
        metric: Some(("adc_hub_uptime_seconds", "Seconds since the hub started.")),
    },
];
