// The part of the table of ports: their connections, and how long requests took.
use crate::metric::{Metric, OpenMetric, ReplyMetric, TimeMetric};
use crate::table::Row;

/// The connections and the requests of ports.
pub(crate) const PORTS: [Row; 36] = [
    Row {
        head: "# HELP lambda_broker_open_connections Connections that are open, by port.\n# TYPE lambda_broker_open_connections gauge\n",
        name: "lambda_broker_open_connections{port=\"callers\"}",
        metric: Metric::Open(OpenMetric::Callers),
    },
    Row {
        head: "",
        name: "lambda_broker_open_connections{port=\"environments\"}",
        metric: Metric::Open(OpenMetric::Environments),
    },
    Row {
        head: "",
        name: "lambda_broker_open_connections{port=\"operator\"}",
        metric: Metric::Open(OpenMetric::Operator),
    },
    Row {
        head: "# HELP lambda_broker_request_seconds Time from the head of a request to its reply, by kind.\n# TYPE lambda_broker_request_seconds histogram\n",
        name: "lambda_broker_request_seconds_bucket{kind=\"call\",le=\"0.001\"}",
        metric: Metric::Reply(ReplyMetric::Call, TimeMetric::Within(0)),
    },
    Row {
        head: "",
        name: "lambda_broker_request_seconds_bucket{kind=\"call\",le=\"0.0025\"}",
        metric: Metric::Reply(ReplyMetric::Call, TimeMetric::Within(1)),
    },
    Row {
        head: "",
        name: "lambda_broker_request_seconds_bucket{kind=\"call\",le=\"0.005\"}",
        metric: Metric::Reply(ReplyMetric::Call, TimeMetric::Within(2)),
    },
    Row {
        head: "",
        name: "lambda_broker_request_seconds_bucket{kind=\"call\",le=\"0.01\"}",
        metric: Metric::Reply(ReplyMetric::Call, TimeMetric::Within(3)),
    },
    Row {
        head: "",
        name: "lambda_broker_request_seconds_bucket{kind=\"call\",le=\"0.025\"}",
        metric: Metric::Reply(ReplyMetric::Call, TimeMetric::Within(4)),
    },
    Row {
        head: "",
        name: "lambda_broker_request_seconds_bucket{kind=\"call\",le=\"0.1\"}",
        metric: Metric::Reply(ReplyMetric::Call, TimeMetric::Within(5)),
    },
    Row {
        head: "",
        name: "lambda_broker_request_seconds_bucket{kind=\"call\",le=\"0.5\"}",
        metric: Metric::Reply(ReplyMetric::Call, TimeMetric::Within(6)),
    },
    Row {
        head: "",
        name: "lambda_broker_request_seconds_bucket{kind=\"call\",le=\"2.5\"}",
        metric: Metric::Reply(ReplyMetric::Call, TimeMetric::Within(7)),
    },
    Row {
        head: "",
        name: "lambda_broker_request_seconds_bucket{kind=\"call\",le=\"+Inf\"}",
        metric: Metric::Reply(ReplyMetric::Call, TimeMetric::All),
    },
    Row {
        head: "",
        name: "lambda_broker_request_seconds_sum{kind=\"call\"}",
        metric: Metric::Reply(ReplyMetric::Call, TimeMetric::Time),
    },
    Row {
        head: "",
        name: "lambda_broker_request_seconds_count{kind=\"call\"}",
        metric: Metric::Reply(ReplyMetric::Call, TimeMetric::All),
    },
    Row {
        head: "",
        name: "lambda_broker_request_seconds_bucket{kind=\"report\",le=\"0.001\"}",
        metric: Metric::Reply(ReplyMetric::Report, TimeMetric::Within(0)),
    },
    Row {
        head: "",
        name: "lambda_broker_request_seconds_bucket{kind=\"report\",le=\"0.0025\"}",
        metric: Metric::Reply(ReplyMetric::Report, TimeMetric::Within(1)),
    },
    Row {
        head: "",
        name: "lambda_broker_request_seconds_bucket{kind=\"report\",le=\"0.005\"}",
        metric: Metric::Reply(ReplyMetric::Report, TimeMetric::Within(2)),
    },
    Row {
        head: "",
        name: "lambda_broker_request_seconds_bucket{kind=\"report\",le=\"0.01\"}",
        metric: Metric::Reply(ReplyMetric::Report, TimeMetric::Within(3)),
    },
    Row {
        head: "",
        name: "lambda_broker_request_seconds_bucket{kind=\"report\",le=\"0.025\"}",
        metric: Metric::Reply(ReplyMetric::Report, TimeMetric::Within(4)),
    },
    Row {
        head: "",
        name: "lambda_broker_request_seconds_bucket{kind=\"report\",le=\"0.1\"}",
        metric: Metric::Reply(ReplyMetric::Report, TimeMetric::Within(5)),
    },
    Row {
        head: "",
        name: "lambda_broker_request_seconds_bucket{kind=\"report\",le=\"0.5\"}",
        metric: Metric::Reply(ReplyMetric::Report, TimeMetric::Within(6)),
    },
    Row {
        head: "",
        name: "lambda_broker_request_seconds_bucket{kind=\"report\",le=\"2.5\"}",
        metric: Metric::Reply(ReplyMetric::Report, TimeMetric::Within(7)),
    },
    Row {
        head: "",
        name: "lambda_broker_request_seconds_bucket{kind=\"report\",le=\"+Inf\"}",
        metric: Metric::Reply(ReplyMetric::Report, TimeMetric::All),
    },
    Row {
        head: "",
        name: "lambda_broker_request_seconds_sum{kind=\"report\"}",
        metric: Metric::Reply(ReplyMetric::Report, TimeMetric::Time),
    },
    Row {
        head: "",
        name: "lambda_broker_request_seconds_count{kind=\"report\"}",
        metric: Metric::Reply(ReplyMetric::Report, TimeMetric::All),
    },
    Row {
        head: "",
        name: "lambda_broker_request_seconds_bucket{kind=\"poll\",le=\"0.001\"}",
        metric: Metric::Reply(ReplyMetric::Poll, TimeMetric::Within(0)),
    },
    Row {
        head: "",
        name: "lambda_broker_request_seconds_bucket{kind=\"poll\",le=\"0.0025\"}",
        metric: Metric::Reply(ReplyMetric::Poll, TimeMetric::Within(1)),
    },
    Row {
        head: "",
        name: "lambda_broker_request_seconds_bucket{kind=\"poll\",le=\"0.005\"}",
        metric: Metric::Reply(ReplyMetric::Poll, TimeMetric::Within(2)),
    },
    Row {
        head: "",
        name: "lambda_broker_request_seconds_bucket{kind=\"poll\",le=\"0.01\"}",
        metric: Metric::Reply(ReplyMetric::Poll, TimeMetric::Within(3)),
    },
    Row {
        head: "",
        name: "lambda_broker_request_seconds_bucket{kind=\"poll\",le=\"0.025\"}",
        metric: Metric::Reply(ReplyMetric::Poll, TimeMetric::Within(4)),
    },
    Row {
        head: "",
        name: "lambda_broker_request_seconds_bucket{kind=\"poll\",le=\"0.1\"}",
        metric: Metric::Reply(ReplyMetric::Poll, TimeMetric::Within(5)),
    },
    Row {
        head: "",
        name: "lambda_broker_request_seconds_bucket{kind=\"poll\",le=\"0.5\"}",
        metric: Metric::Reply(ReplyMetric::Poll, TimeMetric::Within(6)),
    },
    Row {
        head: "",
        name: "lambda_broker_request_seconds_bucket{kind=\"poll\",le=\"2.5\"}",
        metric: Metric::Reply(ReplyMetric::Poll, TimeMetric::Within(7)),
    },
    Row {
        head: "",
        name: "lambda_broker_request_seconds_bucket{kind=\"poll\",le=\"+Inf\"}",
        metric: Metric::Reply(ReplyMetric::Poll, TimeMetric::All),
    },
    Row {
        head: "",
        name: "lambda_broker_request_seconds_sum{kind=\"poll\"}",
        metric: Metric::Reply(ReplyMetric::Poll, TimeMetric::Time),
    },
    Row {
        head: "",
        name: "lambda_broker_request_seconds_count{kind=\"poll\"}",
        metric: Metric::Reply(ReplyMetric::Poll, TimeMetric::All),
    },
];
