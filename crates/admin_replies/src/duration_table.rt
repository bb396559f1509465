// The part of the table of how long events took.
use crate::metric::{Metric, TimeMetric};
use crate::table::Row;

/// How long events took from their acceptance to their end.
pub(crate) const DURATIONS: [Row; 11] = [
    Row {
        head: "# HELP lambda_broker_event_seconds Time from the acceptance of an event to its end.\n# TYPE lambda_broker_event_seconds histogram\n",
        name: "lambda_broker_event_seconds_bucket{le=\"0.01\"}",
        metric: Metric::Event(TimeMetric::Within(0)),
    },
    Row {
        head: "",
        name: "lambda_broker_event_seconds_bucket{le=\"0.1\"}",
        metric: Metric::Event(TimeMetric::Within(1)),
    },
    Row {
        head: "",
        name: "lambda_broker_event_seconds_bucket{le=\"1\"}",
        metric: Metric::Event(TimeMetric::Within(2)),
    },
    Row {
        head: "",
        name: "lambda_broker_event_seconds_bucket{le=\"10\"}",
        metric: Metric::Event(TimeMetric::Within(3)),
    },
    Row {
        head: "",
        name: "lambda_broker_event_seconds_bucket{le=\"60\"}",
        metric: Metric::Event(TimeMetric::Within(4)),
    },
    Row {
        head: "",
        name: "lambda_broker_event_seconds_bucket{le=\"300\"}",
        metric: Metric::Event(TimeMetric::Within(5)),
    },
    Row {
        head: "",
        name: "lambda_broker_event_seconds_bucket{le=\"3600\"}",
        metric: Metric::Event(TimeMetric::Within(6)),
    },
    Row {
        head: "",
        name: "lambda_broker_event_seconds_bucket{le=\"21600\"}",
        metric: Metric::Event(TimeMetric::Within(7)),
    },
    Row {
        head: "",
        name: "lambda_broker_event_seconds_bucket{le=\"+Inf\"}",
        metric: Metric::Event(TimeMetric::All),
    },
    Row {
        head: "",
        name: "lambda_broker_event_seconds_sum",
        metric: Metric::Event(TimeMetric::Time),
    },
    Row {
        head: "",
        name: "lambda_broker_event_seconds_count",
        metric: Metric::Event(TimeMetric::All),
    },
];
