// The page that an operator sees. tools/page makes this file of page.html: change that one, and run it.

/// The page at `/` of the admin port, whole: style and script are in it.
pub const PAGE: &str = r##"<!doctype html>
<html lang="en">
<head>
<meta charset="utf-8">
<meta name="viewport" content="width=device-width, initial-scale=1">
<meta http-equiv="Content-Security-Policy" content="default-src 'none'; connect-src 'self'; frame-src 'self'; img-src data:; base-uri 'none'; form-action 'none'; style-src 'sha256-bw1yV4ByBa9q66WphivbkTr/p+LLuW//C61/VbnIXWI='; script-src 'sha256-ui1b3QW72lxS65Mmc4nQ4dTk0OmyKFy+ipL/DtkbpEE=' 'sha256-ygt5vVVC1o60ykuL5poRHTAwfNpf3BAz79869Ag6DrY='">
<link rel="icon" href="data:,">
<title>Lambda broker</title>
<style>
:root { color-scheme: light dark; --ground: #fff; --ink: #1b1f24; --soft: #57606a; --line: #d0d7de; --good: #116329; --look: #8a5300; --bad: #b3261e; --link: #0a58ca;
  --waiting: #bf8700; --due_again: #d4511e; --running: #0969da; --success: #1a7f37; --retries_exhausted: #b3261e; --event_age_exceeded: #8250df; }
@media (prefers-color-scheme: dark) { :root { --ground: #0f1318; --ink: #e6edf3; --soft: #9aa5b1; --line: #30363d; --good: #56d364; --look: #e3b341; --bad: #ff8a80; --link: #79b8ff;
  --waiting: #d9a520; --due_again: #f0883e; --running: #58a6ff; --success: #3fb950; --retries_exhausted: #ff6b62; --event_age_exceeded: #bc8cff; } }
* { box-sizing: border-box; }
[hidden] { display: none !important; }
body { margin: 0 auto; padding: 1rem; max-width: 72rem; background: var(--ground); color: var(--ink); font: 1rem/1.45 system-ui, sans-serif; font-variant-numeric: tabular-nums; }
h1 { font-size: 1.35rem; margin: 0; }
h1, h2, .error, #health, #findings, pre { overflow-wrap: anywhere; }
h2 { font-size: 1.05rem; margin: 1.75rem 0 .5rem; }
h2:focus { outline: none; }
nav { display: flex; flex-wrap: wrap; gap: .25rem 1rem; margin: .8rem 0 0; padding: .3rem 0; border-bottom: 1px solid var(--line); }
nav [aria-current] { color: var(--ink); font-weight: 600; text-decoration: none; }
a { color: var(--link); }
p { margin: .35rem 0; }
.soft, figcaption, th { color: var(--soft); font-size: .875rem; }
#health { font-size: 1.15rem; font-weight: 600; border-left: .4rem solid var(--soft); padding: .3rem .7rem; margin: .6rem 0 .2rem; }
#health.good { border-color: var(--good); color: var(--good); }
#health.look { border-color: var(--look); color: var(--look); }
#health.bad, #health.gone { border-color: var(--bad); color: var(--bad); }
#findings { margin: .4rem 0; padding-left: 1.2rem; }
#findings li { margin: .3rem 0; }
main.gone { filter: grayscale(1); }
#bar { display: flex; gap: 2px; height: 1.75rem; border: 1px solid var(--line); border-radius: 4px; overflow: hidden; }
#bar span { flex-basis: 0; min-width: 3px; }
#legend, dl { display: grid; grid-template-columns: repeat(auto-fill, minmax(17rem, 1fr)); gap: 0 2rem; margin: .6rem 0 0; padding: 0; }
#legend li, dl div { display: flex; gap: .6rem; align-items: baseline; border-bottom: 1px solid var(--line); padding: .2rem 0; }
#legend i { flex: none; width: .8rem; height: .8rem; border: 1px solid var(--line); border-radius: 2px; }
b, dd { margin: 0 0 0 auto; font-weight: 600; text-align: right; }
dt { flex-shrink: .1; }
dd { overflow-wrap: anywhere; }
#event, .wide { grid-template-columns: 1fr; }
pre { margin: .35rem 0; padding: .6rem .75rem; border: 1px solid var(--line); border-radius: 4px; white-space: pre-wrap; font: .875rem/1.4 ui-monospace, monospace; }
.low { height: 8rem; }
iframe:not(.low) { height: 20rem; }
iframe { width: 100%; border: 1px solid var(--line); background: #fff; color-scheme: light; }
#plots { display: grid; grid-template-columns: repeat(auto-fill, minmax(14rem, 1fr)); gap: 1rem 1.5rem; }
figure { margin: 0; min-width: 0; }
figcaption { display: flex; justify-content: space-between; align-items: end; gap: .5rem; color: var(--ink); }
svg { display: block; width: 100%; height: 3.25rem; margin: .2rem 0; border: solid var(--line); border-width: 0 0 1px 1px; }
path { fill: none; stroke-width: 2; vector-effect: non-scaling-stroke; stroke-linejoin: round; stroke-linecap: round; }
table { border-collapse: collapse; width: 100%; }
th, td { text-align: left; vertical-align: baseline; padding: .3rem 1.25rem .3rem 0; border-bottom: 1px solid var(--line); }
.n { text-align: right; }
td:not(.error, .wrap) { white-space: nowrap; }
.more { display: flex; gap: 1rem; }
.id a { font: .875rem ui-monospace, monospace; }
@media (max-width: 44rem) {
  #plots { grid-template-columns: repeat(2, minmax(0, 1fr)); }
  body { padding: .75rem; }
  table { font-size: .9375rem; }
  th, td { padding-right: .4rem; }
  .far { display: none; }
  #runs :nth-child(2) { padding-right: .9rem; }
  .id a { display: block; max-width: 4.4rem; overflow: hidden; text-overflow: ellipsis; }
}
</style>
</head>
<body>
<header>
<h1 id="name">Lambda broker</h1>
<p id="health" role="status" hidden>asking the broker</p>
<ul id="findings" aria-label="What was found"></ul>
<p class="soft" id="when"></p>
<nav id="nav" aria-label="Pages" hidden>
<a href="#">Now</a><a href="#waiting">Waiting</a><a href="#running">Running</a><a href="#failure">Failures</a><a href="#success">Successes</a><a href="#events">All events</a><a href="#settings">Settings</a>
</nav>
</header>
<noscript>
<p>Without JavaScript this page has what the broker says as text, as it was when the page was loaded.</p>
<h2>What is wrong</h2>
<iframe class="low" src="healthz?deep" title="what is wrong"></iframe>
<h2>The last minutes</h2>
<iframe src="history" title="the last minutes"></iframe>
<h2>All numbers</h2>
<iframe src="metrics" title="all numbers"></iframe>
<p>As text: <a href="healthz?deep">what is wrong</a> · <a href="history">the last minutes</a> · <a href="metrics">all numbers</a>. As JSON: <a href="events?standing=waiting">waiting</a> · <a href="events?standing=running">running</a> · <a href="events">all events</a> · <a href="records/failure">failures</a> · <a href="records/success">successes</a></p>
</noscript>
<main id="main">
<section id="view-now" hidden>
<h2 tabindex="-1">Environments, waits, refusals</h2>
<dl id="now"></dl>
<h2>Events held: <span id="held">–</span></h2>
<div id="bar" role="img" aria-label="not read yet"></div>
<ul id="legend"></ul>
<h2 id="h-runs">Running</h2>
<table id="runs" aria-labelledby="h-runs"></table><p class="soft" id="runs-none"></p>
<h2 id="h-places">Environments, by phase</h2>
<table id="places" aria-labelledby="h-places"></table><p class="soft" id="places-none"></p><p class="soft" id="places-more"></p>
<h2 id="h-fails">Failures, by error</h2>
<table id="fails" aria-labelledby="h-fails"></table><p class="soft" id="fails-none"></p><p class="soft" id="fails-more"></p>
<h2 id="h-waits">Oldest waits</h2>
<table id="waits" aria-labelledby="h-waits"></table><p class="soft" id="waits-none"></p>
<h2>The last <span id="seen">minutes</span></h2>
<div id="plots"></div>
<h2>The broker itself</h2>
<dl id="more"></dl>
<p class="soft">As text: <a href="metrics">all numbers</a> · <a href="history">the last minutes</a></p>
</section>
<section id="view-event" hidden>
<h2 id="h-one" tabindex="-1">Event</h2>
<p id="event-none"></p>
<div id="one">
<dl id="event"></dl>
<h2>Last error</h2>
<p class="error" id="error"></p>
<pre id="error-text"></pre>
<h2>Payload<span id="payload-part"></span></h2>
<pre id="payload"></pre>
<h2>Record</h2>
<p id="record-none"></p>
<pre id="record"></pre>
<p class="soft" id="collect-words">This collects it, so that it is held no longer. P is the callers’ port.</p>
<pre id="collect"></pre>
</div>
<p class="soft"><a id="whole" href="events">as JSON</a></p>
</section>
<section id="view-events" hidden>
<h2 id="h-list" tabindex="-1">Events</h2>
<table id="list" aria-labelledby="h-list"></table><p class="soft" id="list-none"></p>
<p class="more"><a id="list-first" hidden>from the first</a><a id="list-next" hidden>next</a><a class="soft" id="list-json" href="events">as JSON</a></p>
</section>
<section id="view-records" hidden>
<h2 id="h-records" tabindex="-1">Records</h2>
<table id="records" aria-labelledby="h-records"></table><p class="soft" id="records-none"></p>
<p class="more"><a id="records-first" hidden>from the first</a><a id="records-next" hidden>next</a><a class="soft" id="records-json" href="records/failure">as lines of JSON</a></p>
</section>
<section id="view-settings" hidden>
<h2 tabindex="-1">Settings</h2>
<dl id="settings" class="wide"></dl>
<p class="soft">Retries and age are those in force for new events. The rest was set when the disk was formatted.</p>
</section>
</main>
<script>
"use strict";
// What needs no document: numbers and lines as they are read.
const whole = new Intl.NumberFormat("en", { maximumFractionDigits: 0 }).format;
function rate(n) { return n === null ? "–" : n % 1 && n < 10 ? n.toFixed(n < 0.1 ? 2 : 1) : whole(n); }
function span(seconds) {
  const s = Math.max(0, Math.round(seconds)), m = Math.floor(s / 60), h = Math.floor(m / 60), d = Math.floor(h / 24);
  return (d ? `${d} d ${h % 24} h` : h ? `${h} h ${m % 60} min` : m > 9 ? `${m} min` : m ? `${m} min ${s % 60} s` : `${s} s`).replace(/ 0 \w+$/, "");
}

// What /metrics says: each family's values with their labels.
function read(text) {
  const families = {};
  for (const line of text.split("\n")) {
    const found = /^lambda_broker_(\w+)(?:\{(.*)\})? (\S+)/.exec(line);
    if (!found) continue;
    const labels = {};
    for (const [, name, value] of (found[2] || "").matchAll(/(\w+)="((?:[^"\\]|\\.)*)"/g)) labels[name] = value;
    (families[found[1]] ||= []).push({ labels, value: Number(found[3]) });
  }
  return families;
}
// The sum of a family, or of its values with one of these labels.
function sum(families, family, ...labels) {
  let total = 0;
  for (const { labels: of, value } of families[family] || [])
    if (!labels.length || Object.values(of).some((label) => labels.includes(label))) total += value;
  return total;
}
// What /history says: a sample a line, by the names of its first line.
function samplesOf(text) {
  const [names, ...lines] = text.trim().split("\n").map((line) => line.split(","));
  return lines.map((line) => Object.fromEntries(line.map((number, place) => [names[place], Number(number)])));
}
// What is plotted of them: numbers, or how they grew for each one of another number. Where that did not grow there is nothing.
function pointsOf(samples, { of, by, times }) {
  const total = (sample) => of.reduce((sum, name) => sum + sample[name], 0);
  if (!by) return samples.map((sample) => ({ at: sample.at, value: total(sample) }));
  return samples.slice(1).map((sample, place) => {
    const before = samples[place], weight = sample[by] - before[by];
    return { at: sample.at, value: weight > 0 ? (total(sample) - total(before)) / weight * times : null };
  });
}
// Which program it is, and whether it is proved.
function versionOf({ build_info: [{ labels: { version, state } }] = [{ labels: {} }] }) { return `${version}, ${state}`; }
// Whether the broker tells of its events. Where a flush hangs, it does not: it tells what is wrong alone.
function tellsEvents({ families }) { return Boolean(families.events); }
// In which phase each environment is, and for how long: the longest in init or closing come first, then the longest busy.
const ORDER = ["init", "closing", "busy", "ready"];
function environmentsOf(families) {
  const times = Object.fromEntries((families.environment_phase_seconds || []).map(({ labels, value }) => [labels.environment, value]));
  return (families.environment_phase || []).map(({ labels: { environment, phase } }) => ({ environment, phase, time: times[environment] }))
    .sort((one, other) => ORDER.indexOf(one.phase) - ORDER.indexOf(other.phase) || other.time - one.time);
}
// Failures by what is known of them, an error a line: its words, how many, the last of them; and of how many none is known.
function failuresOf(all, known) {
  const lines = {};
  let unread = 0;
  for (const failure of all) {
    const said = known[`${failure.id} ${failure.starts}`];
    if (said === undefined) unread++;
    else {
      const told = (failure.standing.includes("Age") ? "EventAgeExceeded: " : "") + said;
      (lines[told] ||= { told, count: 0, last: failure }).count++;
    }
  }
  return { lines: Object.values(lines), unread };
}
// What the page knows: how much each family is (count).
function stateOf({ families, ...seen }) {
  const count = (...of) => sum(families, ...of);
  return { ...seen, families, count, waiting: count("events", "waiting", "due_again"),
    ended: count("events", "success", "retries_exhausted", "event_age_exceeded") };
}

// What the broker says is wrong, a line each: its level, its reason, and what to do. Causes come before what follows from them.
const BAD = "bad";
function findings(text) {
  return text.split("\n").map((line) => /^(bad|look) (\w+): (.*)$/.exec(line)).filter(Boolean)
    .map(([, level, reason, words]) => [level, reason.replaceAll("_", " "), words]);
}
// The worst level of what was found.
function levelOf(found) { return found.some(([level]) => level === BAD) ? BAD : found[0]?.[0]; }
function decoded(text) {
  try { return decodeURIComponent(text); } catch { return text; }
}
// Where the part of the address behind its # leads: the whole, a list behind an event, or one event.
const LISTS = { waiting: "events", running: "events", events: "events", failure: "records", success: "records" };
function placeOf(hash) {
  const [name, after = ""] = hash.slice(1).split("/").map(decoded);
  if (!name) return { view: "now" };
  if (name === "settings") return { view: name };
  return Object.hasOwn(LISTS, name) ? { view: LISTS[name], name, after } : { view: "event", id: name };
}
// What a list is read from.
function sourceOf({ view, name, after }, limit) {
  const path = view === "records" ? `records/${name}?` : `events?${name === "events" ? "" : `standing=${name}&`}`;
  return `${path}limit=${limit}${after && `&after=${encodeURIComponent(after)}`}`;
}
// What the function reported: a value of JSON as a rule.
const LONG = 200;
function short(text) { return text.length > LONG ? text.slice(0, LONG) + "…" : text; }
function errorOf(said) {
  const parts = [said?.errorType, said?.errorMessage].filter((part) => typeof part === "string" && part);
  return short(parts.length ? parts.join(": ") : typeof said === "string" ? said : JSON.stringify(said));
}
function parsed(text) {
  try { return JSON.parse(text); } catch { return text; }
}
function error(told) { return told === null ? "no answer" : errorOf(parsed(told)); }
// What a record says in a line.
function answerOf({ responsePayload }) {
  if (responsePayload === undefined || responsePayload === null) return "no answer";
  return typeof responsePayload === "object" ? errorOf(responsePayload) : short(String(responsePayload));
}
// The first line. It has no numbers, so that a screen reader tells it once.
function word(level) { return level === BAD ? "Bad" : "Look"; }
function headline(found) {
  const level = levelOf(found), titles = found.filter(([of]) => of === level).map(([, title]) => title);
  return level ? `${word(level)}: ${titles.join("; ")}.` : "The broker is well.";
}
</script>
<script>
"use strict";
const EVERY = 3000, PATIENCE = 5000, SHOWN = 6, RUNNING = 16, FAILED = 24, FAILURES = 1000, LARGE = 65536, LISTED = 50, RECORDS = 25;
const STANDINGS = { waiting: "waiting", due_again: "due again", running: "running", success: "ended: Success",
  retries_exhausted: "ended: RetriesExhausted", event_age_exceeded: "ended: EventAgeExceeded" };
const $ = (id) => document.getElementById(id);

// Whatever is inserted is text, and never markup.
function put(node, text) { if (node.textContent !== String(text)) node.textContent = text; }
function add(parent, tag, text = "", kind = "") {
  const node = document.createElement(tag);
  node.textContent = text;
  if (kind) node.className = kind;
  return parent.appendChild(node);
}
const stamp = (moment) => new Date(moment).toLocaleString("sv").replaceAll("-", "\u2011");

// What is plotted of the samples: a number, or how it grows by the milliseconds or by another number.
const PLOTS = [
  ["accepted a second", "running", "at", 1000, "accepted"],
  ["successes a second", "success", "at", 1000, "succeeded"],
  ["failed attempts a second", "retries_exhausted", "at", 1000, "failed"],
  ["collected a second", "running", "at", 1000, "collected"],
  ["waiting or due again", "waiting", null, 1, "waiting"],
  ["429 and 503 a second", "retries_exhausted", "at", 1000, "refused_full", "refused_busy"],
  ["a commit, ms", "running", "commits", 0.001, "commit_microseconds"],
  ["bytes a second", "running", "at", 1000, "written_bytes"],
].map(([name, colour, by, times, ...of]) => {
  const figure = add($("plots"), "figure"), caption = add(figure, "figcaption", name), svg = "http://www.w3.org/2000/svg";
  const picture = figure.appendChild(document.createElementNS(svg, "svg")), path = picture.appendChild(document.createElementNS(svg, "path"));
  picture.setAttribute("viewBox", "0 0 300 50");
  picture.setAttribute("preserveAspectRatio", "none");
  picture.role = "img";
  path.style.stroke = `var(--${colour})`;
  return { name, of, by, times, picture, path, now: add(caption, "b"), most: add(figure, "div", "", "soft") };
});
// A plot is as wide as what is kept.
function draw(plot, samples) {
  const points = pointsOf(samples, plot), values = points.map((point) => point.value).filter((value) => value !== null);
  const most = Math.max(0, ...values), now = rate(points.at(-1)?.value ?? null), end = samples.at(-1).at, wide = Math.max(end - samples[0].at, 1);
  let line = "", open = false;
  for (const { at, value } of points) {
    if (value !== null) line += `${open ? "L" : "M"}${298 - (end - at) * 297 / wide} ${48 - (most ? value / most * 45 : 0)}${open ? "" : "h4"}`;
    open = value !== null;
  }
  plot.path.setAttribute("d", line);
  put(plot.now, now);
  put(plot.most, values.length ? `at most ${rate(most)}` : "nothing yet");
  plot.picture.setAttribute("aria-label", `${plot.name}: ${now} now, ${plot.most.textContent}`);
}
function showHistory(samples) {
  if (!samples.length) return;
  for (const plot of PLOTS) draw(plot, samples);
  put($("seen"), span((samples.at(-1).at - samples[0].at) / 1000));
}

const marks = Object.entries(STANDINGS).map(([standing, words]) => {
  const piece = add($("bar"), "span"), item = add($("legend"), "li");
  piece.style.background = add(item, "i").style.background = `var(--${standing})`;
  add(item, "span", words);
  return { standing, piece, count: add(item, "b") };
});
// The bar is as full as the table: its last piece is what is free.
const free = add($("bar"), "span");
function grow(piece, n) {
  piece.style.flexGrow = n;
  piece.style.display = n > 0 ? "" : "none";
}
function showStandings({ count }) {
  const held = count("events"), most = count("table_limit");
  for (const mark of marks) {
    grow(mark.piece, count("events", mark.standing));
    put(mark.count, whole(count("events", mark.standing)));
  }
  grow(free, most - held);
  put($("held"), `${whole(held)} of at most ${whole(most)}`);
  $("bar").setAttribute("aria-label", `${$("held").textContent} events are held, as the list below tells`);
}

// Lines and cells are made once: only their text changes.
function tell(list, texts) {
  const into = $(list), entries = Object.entries(texts);
  while (into.children.length > entries.length) into.lastChild.remove();
  entries.forEach(([name, text], place) => {
    const line = into.children[place] || add(into, "div");
    put(line.children[0] || add(line, "dt"), name);
    put(line.children[1] || add(line, "dd"), text);
  });
}
// The counts of a family by a label.
function each(families, family, label) {
  const counts = (families[family] || []).map(({ labels, value }) => [labels[label], value]);
  return counts.filter(([, n]) => n > 0).map(([name, n]) => `${name.replaceAll("_", " ")}: ${whole(n)}`).join(", ") || "none";
}
function showFacts({ families, waits, now, count, waiting, ended }) {
  const number = (...of) => whole(count(...of)), age = count("age_limit_seconds"), due = waits.filter((event) => event.moment <= now).length;
  tell("now", {
    "environments": each(families, "environments", "phase"),
    "running": `${number("events", "running")} of at most ${number("attempts_limit")}`,
    "waiting or due again": `${whole(waiting)}, due now: ${whole(due)}`,
    "oldest wait": waiting ? `${span(count("oldest_wait_age_seconds"))} of at most ${span(waits[0]?.age ?? age)}` : "none",
    "refused since served": each(families, "refused_total", "reason"),
  });
  tell("more", {
    "oldest record": ended ? span(count("oldest_record_age_seconds")) : "none",
    "parked polls, of open requests": `${number("parked_polls")} of ${number("open_slots")}`,
    "open connections": each(families, "open_connections", "port"),
    "commands not durable yet": number("pending_commands"),
    "throttled, interrupted": `${number("attempts_throttled_total")}, ${number("attempts_interrupted_total")}`,
    "switches, generation": `${number("switches_total")}, ${number("generation")}`,
    "version, served for": `${versionOf(families)}, ${span(now / 1000 - count("process_start_time_seconds"))}`,
    "memory": `${whole(count("process_resident_memory_bytes") / 1048576)} MiB`,
  });
}
function showSettings({ families, now, count }) {
  const number = (...of) => whole(count(...of)), of = families.settings_info?.[0].labels ?? {}, started = count("process_start_time_seconds");
  tell("settings", {
    "function": of.function,
    "handler": of.handler,
    "ARN": of.arn,
    "retries, age": `${number("retries_limit")}, ${span(count("age_limit_seconds"))}`,
    "timeout of an attempt": span(count("timeout_seconds")),
    "attempts at once": `at most ${number("attempts_limit")}`,
    "environments": number("environments"),
    "events held": `at most ${number("table_limit")}`,
    "bytes of a payload, of a response": `at most ${number("payload_limit_bytes")}, ${number("response_limit_bytes")}`,
    "bytes of the disk": number("disk_bytes"),
    "version": versionOf(families),
    "kit": families.build_info?.[0].labels.kit || "not known",
    "served since": `${stamp(1000 * started)}, for ${span(now / 1000 - started)}`,
  });
}

// A list is an event's id, and the words that lead to it.
function fill(cell, text) {
  const leads = Array.isArray(text), inner = cell.firstElementChild || add(cell, leads ? "a" : "bdi");
  if (leads) inner.href = `#${encodeURIComponent(text[0])}`;
  put(inner, leads ? text[1] : text);
}
function table(id, columns, none) {
  const head = add(add($(id), "thead"), "tr"), body = add($(id), "tbody");
  for (const [name, kind] of columns) add(head, "th", name, kind.replace("id", "")).scope = "col";
  return (rows) => {
    $(id).hidden = !rows.length;
    put($(`${id}-none`), rows.length ? "" : none);
    while (body.rows.length > rows.length) body.deleteRow(-1);
    rows.forEach((texts, at) => {
      const row = body.rows[at] || body.insertRow();
      texts.forEach((text, place) => fill(row.cells[place] || add(row, "td", "", columns[place][1]), text));
    });
  };
}
const showRuns = table("runs", [["event", "id"], ["environ\u00adment", "n"], ["age", "n"], ["deadline in", "n"]], "No event runs.");
const showPlaces = table("places", [["environ\u00adment", ""], ["phase", ""], ["for", "n"]], "None was looked at yet.");
const showFails = table("fails", [["error", "error"], ["events", "n"], ["last", "n wrap"]], "No event that failed is held.");
const showList = table("list", [["event", "id"], ["stands", "wrap"], ["accepted", "n far"], ["due or ended", "n"], ["starts", "n"], ["failures", "n far"], ["bytes", "n far"]], "No such event is held.");
const showRecords = table("records", [["event", "id"], ["ended", "wrap"], ["outcome", "wrap far"], ["starts", "n far"], ["error or response", "error"]], "No such record is held.");
const showWaits = table("waits", [["event", "id"], ["waits", "n"], ["due in", "n"], ["starts", "n"], ["failures", "n"]], "No event waits.");

async function ask(path) {
  const reply = await fetch(path, { cache: "no-store", signal: AbortSignal.timeout(PATIENCE) });
  if (!reply.ok && path !== "healthz?deep") throw new Error(`${path} was answered ${reply.status} ${(await reply.text()).trim()}`);
  return reply;
}
const json = async (path) => (await ask(path)).json();
const until = (moment, now) => moment > now ? span((moment - now) / 1000) : "now";
const ago = (moment, now) => moment > now ? `in ${span((moment - now) / 1000)}` : `${span((now - moment) / 1000)} ago`;
const ends = (standing) => standing.startsWith("ended") ? "ended" : standing === "running" ? "deadline" : "due";
function showPart(name, text) {
  $(name).hidden = !text;
  put($(name), text);
}
function showEvent(e, now) {
  tell("event", {
    "stands": e.environment === null ? e.standing : `${e.standing} in environment ${e.environment}`,
    "accepted": `${stamp(e.accepted)}, ${ago(e.accepted, now)}`,
    [ends(e.standing)]: `${stamp(e.moment)}, ${ago(e.moment, now)}`,
    "starts, failures, put back since": `${e.starts}, ${e.failures}, ${e.pushbacks}`,
    "retries": `at most ${e.retries}`,
    "too old": `${stamp(e.accepted + 1000 * e.age)}, ${ago(e.accepted + 1000 * e.age, now)}`,
    "bytes of its payload, of its answer": `${whole(e.payloadBytes)}, ${whole(e.answerBytes)}`,
  });
  put($("error"), e.lastError === null ? "None was reported." : error(e.lastError));
  showPart("error-text", e.lastError);
  put($("payload-part"), new TextEncoder().encode(e.payload).length < e.payloadBytes ? ": its beginning" : "");
  showPart("payload", e.payload);
  showPart("record-none", e.record ? "" : "It has none until it has ended.");
  showPart("record", e.record && JSON.stringify(e.record, null, 2));
  $("collect-words").hidden = !e.record;
  showPart("collect", e.record && `curl -X DELETE http://127.0.0.1:P/broker/destinations/${e.id}`);
}
async function readEvent({ id }, now) {
  const path = `events/${encodeURIComponent(id)}`;
  $("whole").href = path;
  put($("h-one"), `Event ${id}`);
  try {
    showEvent(await json(path), now);
    put($("event-none"), "");
    $("one").hidden = false;
  } catch (why) {
    put($("event-none"), why.message);
    $("one").hidden = true;
  }
}
function showMore(view, { name, after }, next, path) {
  $(`${view}-first`).href = `#${name}`;
  $(`${view}-first`).hidden = !after;
  $(`${view}-next`).href = `#${name}/${next}`;
  $(`${view}-next`).hidden = !next;
  $(`${view}-json`).href = path;
}
const TITLES = { waiting: "Events that wait", running: "Events that run", events: "All events", failure: "Failures", success: "Successes" };
async function readList(place, now) {
  const path = sourceOf(place, LISTED), { events, next } = await json(path);
  put($("h-list"), TITLES[place.name] + (place.after ? ", further on" : ", in the order of acceptance"));
  showList(events.map((e) => [[e.id, e.id], e.standing, ago(e.accepted, now), ago(e.moment, now), e.starts, e.failures, whole(e.payloadBytes)]));
  showMore("list", place, next, path);
}
async function readRecords(place) {
  const path = sourceOf(place, RECORDS), reply = await ask(path), lines = (await reply.text()).split("\n").filter(Boolean).map((line) => JSON.parse(line));
  put($("h-records"), TITLES[place.name] + (place.after ? ", further on" : ", in the order of their ends"));
  showRecords(lines.map((record) => {
    const { requestId, condition, approximateInvokeCount } = record.requestContext;
    return [[requestId, requestId], stamp(Date.parse(record.timestamp)), condition, approximateInvokeCount, answerOf(record)];
  }));
  showMore("records", place, reply.headers.get("next-after"), path);
}
async function readRuns(now) {
  const { events } = await json(`events?standing=running&limit=${RUNNING}`);
  showRuns(events.map((e) => [[e.id, e.id], e.environment, span((now - e.accepted) / 1000), until(e.moment, now)]));
}
async function readWaits(now) {
  const { events } = await json("events?standing=waiting&limit=1000");
  showWaits(events.slice(0, SHOWN).map((e) => [[e.id, e.id], span((now - e.accepted) / 1000), until(e.moment, now), e.starts, e.failures]));
  return events;
}
let known = {}, shown = "", unread = 0;
async function lastError({ id, starts, payloadBytes }) {
  return known[`${id} ${starts}`] ?? (payloadBytes > LARGE ? "not read: the payload is large" : error((await json(`events/${id}`)).lastError));
}
// The list is in the order of acceptance, so the last that ended are found by all of it.
async function lastFailures() {
  const all = waits.filter((event) => event.failures);
  let after = "";
  do {
    const page = await json(`events?standing=failure&limit=1000${after}`);
    all.push(...page.events);
    after = page.next && `&after=${page.next}`;
  } while (after);
  return all.sort((a, b) => b.moment - a.moment);
}
// Equal errors are one line. Where a count has changed, or some are not read, some more are, the last first.
async function readFails(state) {
  if (state === shown && !unread) return;
  const all = await lastFailures(), near = all.slice(0, FAILURES), key = ({ id, starts }) => `${id} ${starts}`;
  const next = near.filter((failure) => !(key(failure) in known)).slice(0, FAILED), errors = await Promise.all(next.map(lastError));
  next.forEach((failure, place) => known[key(failure)] = errors[place]);
  known = Object.fromEntries(near.map(key).filter((name) => name in known).map((name) => [name, known[name]]));
  const told = failuresOf(near, known), older = all.length - near.length;
  unread = told.unread;
  showFails(told.lines.map(({ told, count, last }) => [told, count, [last.id, last.standing.startsWith("ended") ? stamp(last.moment) : "due again"]]));
  const more = [unread && `${whole(unread)} more are read soon`, older && `${whole(older)} older ones are not read`].filter(Boolean).join("; ");
  put($("fails-more"), more ? `Of ${whole(all.length)} failures, ${more}.` : "");
  shown = state;
}
function showEnvironments(families) {
  const all = environmentsOf(families), near = all.slice(0, RUNNING);
  showPlaces(near.map(({ environment, phase, time }) => [environment, phase, span(time)]));
  put($("places-more"), all.length > near.length ? `${whole(all.length - near.length)} more are not shown.` : "");
}

// A screen reader is told only what has changed.
function health(text, kind) {
  put($("health"), text);
  $("health").className = $("main").className = kind;
  document.title = (kind === "good" ? "" : "! ") + $("name").textContent;
}
function showFound(found) {
  const list = $("findings");
  while (list.children.length > found.length) list.lastChild.remove();
  found.forEach(([level, title, text], place) => {
    const item = list.children[place] || add(list, "li"), name = item.firstChild || add(item, "strong");
    put(name, found.length > 1 ? `${word(level)}: ${title}. ` : "");
    put(item.children[1] || add(item, "span"), text);
  });
}
let answered = 0, told_at = 0, waits = [];
async function readNumbers(at) {
  const reply = await ask("metrics"), families = read(await reply.text()), health = await ask("healthz?deep");
  answered = at;
  return { families, said: health.ok ? "" : await health.text(), now: Date.parse(reply.headers.get("date")) || at };
}
// What a view reads beside the numbers. Records are read where one may have come or gone.
let records = "";
async function readView(place, now, state) {
  const of = location.hash + state;
  if (place.view === "now") {
    showHistory(samplesOf(await (await ask("history")).text()));
    waits = await readWaits(now);
    await readRuns(now);
    await readFails(state);
  } else if (place.view === "event") await readEvent(place, now);
  else if (place.view === "events") await readList(place, now);
  else if (place.view === "records" && of !== records) {
    await readRecords(place);
    records = of;
  }
}
async function readLists({ now, families }) {
  const state = JSON.stringify([families.events, families.attempts_failed_total, families.events_ended_total, families.records_collected_total]);
  try {
    await readView(placeOf(location.hash), now, state);
    return "";
  } catch (why) {
    return `, but not all of this page: ${why.message}`;
  }
}
function showState(seen) {
  const state = stateOf({ ...seen, waits }), found = findings(seen.said);
  put($("name"), seen.families.settings_info?.[0].labels.function || "Lambda broker");
  showFound(found);
  if (tellsEvents(seen)) {
    showFacts(state);
    showSettings(state);
    showStandings(state);
    showEnvironments(seen.families);
  }
  if (seen.said && !found.length) health(`Bad: the broker says ${seen.said.trim()}.`, BAD);
  else health(headline(found), levelOf(found) ?? "good");
}
function showSilence(why) {
  showFound([]);
  const said = why.constructor === Error ? why.message : `the broker has not answered${answered ? ` since ${stamp(answered)}` : ""}`;
  health(`Bad: ${said}. Look at its last lines on standard error.`, "gone");
  return answered ? `What stands below was read at ${stamp(answered)}.` : "";
}
async function readAll(at) {
  let seen;
  try {
    seen = await readNumbers(at);
  } catch (why) {
    return showSilence(why);
  }
  $("main").hidden = !tellsEvents(seen) && !told_at;
  if (!tellsEvents(seen)) {
    showState(seen);
    $("main").className = "gone";
    return `Read at ${stamp(at)}. ${told_at ? `The events stand below as they were at ${stamp(told_at)}.` : "Nothing is known of the events."}`;
  }
  const missing = await readLists(seen);
  showState(seen);
  told_at = at;
  return `Read at ${stamp(at)}, and again every ${EVERY / 1000} seconds${missing}.`;
}
let turns = 0;
async function look() {
  const turn = ++turns;
  put($("when"), await readAll(Date.now()));
  if (turn === turns) setTimeout(() => turn === turns && look(), EVERY);
}
// The view that the address names.
function turnTo() {
  const { view } = placeOf(location.hash), name = location.hash.split("/")[0] || "#";
  for (const section of $("main").children) section.hidden = section.id !== `view-${view}`;
  for (const link of $("nav").children)
    if (link.getAttribute("href") === name) link.ariaCurrent = "page";
    else link.removeAttribute("aria-current");
}
addEventListener("hashchange", () => {
  turnTo();
  $(`view-${placeOf(location.hash).view}`).querySelector("h2").focus();
  look();
});
$("health").hidden = $("nav").hidden = false;
turnTo();
look();
</script>
</body>
</html>
"##;
